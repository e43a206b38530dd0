//! The survey of an input that is packed.
ghost use Rattle.std.specs.Prelude.{◌≡◌};
ghost use Rattle.pack_edits.specs.Modes.{allowed_frames};
ghost use Rattle.pack_edits.specs.Answers.{PackedSurvey};

use commands::{EditFault, MOST_FRAMES, survey_at};
use outside::Folder;
use requests::PackMode;
use std::alloc::Global;
use sync_survey::Survey;

/// How many frames a file may have to be packed in the fewest bytes.
const MOST_BEST: u32 = 200_000;

/// How many frames a file may have to be packed in this mode.
fn allowed(mode: PackMode) -> u32
    ensures { result ≡ allowed_frames mode }
{
    match mode {
        PackMode::Best => MOST_BEST,
        PackMode::Least | PackMode::Constant(_) | PackMode::Floor(_) => MOST_FRAMES,
    }
}

/// The survey of the input.
///
/// # Errors
/// `Input(0, ..)` with the fault of the survey, which is `TooManyFrames` if the input has more
/// frames than the mode allows; `Memory`. The files stay.
pub(crate) fn survey_packed<D: Folder>(
    alloc: Global,
    folder: &mut D,
    name: &str,
    mode: PackMode,
) -> Result<Survey, EditFault>
    ensures { PackedSurvey mode name.now (D.seen folder.old) (D.seen folder.new) result }
{
    survey_at(alloc, folder, name, 0, allowed(mode))
}
