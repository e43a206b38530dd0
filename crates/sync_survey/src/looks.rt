//! Looks at a file of a folder.
ghost use Rattle.std.specs.Prelude.{◌≡◌, ℕ, List, ◌-◌, ◌≤◌, min, length, IfOk, IfErr, OnOk};
ghost use Rattle.outside.specs.Counts.{OnlyReads};
ghost use Rattle.outside.specs.Seen.{OnFile};
ghost use Rattle.outside.specs.Feed.{IsFedFrom};
ghost use Rattle.sync_survey.specs.Looks.{look_size, Shows};
ghost use Rattle.sync_survey.specs.SurveyFaultKinds.{IsFromOutside};
ghost use Rattle.sync_survey.specs.Survey.{HasLength, HoldsOctets, ReadsBy, IsEarlyRefusal, IsLengthFault};

use crate::survey_fault::SurveyFault;
use outside::{Feed, FindFault, Folder};

/// The greatest length of an input in bytes.
pub const LONGEST_FILE: u64 = 1_073_741_824;

/// How many bytes a look shows.
const LOOK_SIZE: u64 = 4096;

/// The length of the file in bytes, at most 1,073,741,824.
///
/// # Errors
/// `Absent` if it isn't there, `TooLong` with its length if it is longer, `Read` if the call
/// failed.
pub fn find_length<D: Folder>(folder: &mut D, name: &str) -> Result<u64, SurveyFault>
    ensures found { IfOk result (HasLength (D.seen folder.old).files name.now) }
    ensures octets { OnOk result (HoldsOctets name.now (D.seen folder.old).files) }
    ensures done { OnOk result ((D.seen folder.new).counts ≡ (D.seen folder.old).counts) }
    ensures refused { IfErr result (IsEarlyRefusal name.now (D.seen folder.old)
        (D.seen folder.new)) }
    ensures length { IfErr result (IsLengthFault name.now (D.seen folder.old).files) }
    ensures files { (D.seen folder.new).files ≡ (D.seen folder.old).files }
    ensures counts { OnlyReads (D.seen folder.old).counts (D.seen folder.new).counts }
{
    match folder.find(name) {
        Ok(length) if length > LONGEST_FILE => Err(SurveyFault::TooLong(length)),
        Ok(length) => Ok(length),
        Err(FindFault::Absent) => Err(SurveyFault::Absent),
        Err(FindFault::Failed) => Err(SurveyFault::Read),
    }
}

/// Looks at the file, which was found with `size` bytes, from the offset `at` on, and returns how
/// many bytes are left from there to its end. The feed gives 4,096 of them, or all if there are
/// fewer.
///
/// # Errors
/// `Read` if a read failed, `Shrunk` if the file ended before `size`.
pub fn look<D: Folder>(
    feed: &mut Feed,
    folder: &mut D,
    name: &str,
    size: u64,
    at: u64,
) -> Result<u64, SurveyFault>
    requires known { HasLength (D.seen folder.old).files name.now size }
    requires within { at ≤ size }
    requires fed { IsFedFrom feed.old (D.seen folder.old).files name.now }
    ensures shows { IfOk result (λ left. OnFile (D.seen folder.old) name.now
        (λ bytes. Shows bytes at feed.new.given left)) }
    ensures left { IfOk result (λ left. left ≡ size - at) }
    ensures many { IfOk result (λ left. length feed.new.given ≡ min look_size left) }
    ensures reads { ReadsBy feed.new name.now result (D.seen folder.old) (D.seen folder.new) }
    ensures refused { IfErr result (IsEarlyRefusal name.now (D.seen folder.old)
        (D.seen folder.new)) }
    ensures outside { IfErr result IsFromOutside }
{
    let left = size - at;
    let wanted = left.min(LOOK_SIZE) as usize;
    feed.fill_exact(folder, name, size, at, wanted)?;
    Ok(left)
}
