//! The head of a file.
ghost use Rattle.std.specs.Prelude.{◌≡◌, ◌+◌, ◌^◌, ◌≤◌, IfOk, IfErr, IfSome};
ghost use Rattle.frame_header.specs.Tables.{class_of, length_of};
ghost use Rattle.outside.specs.Feed.{IsFedFrom};
ghost use Rattle.sync_survey.specs.declared.items.Item.TheVariants.{Frame};
ghost use Rattle.sync_survey.specs.Items.{size_of};
ghost use Rattle.sync_survey.specs.Walk.{head_in_bytes, own_bytes, numbered_offset, IsFrameOf};
ghost use Rattle.sync_survey.specs.MainData.{head_area};
ghost use Rattle.sync_survey.specs.SurveyFaultKinds.{IsFromOutside};
ghost use Rattle.sync_survey.specs.Survey.{HasLength, IsHeadOf, ReadsBy, IsEarlyRefusal};
ghost use Rattle.frame_header.specs.Limits.{most_frame_length};

use crate::looks::look;
use crate::places::{Head, PlacedFrame};
use crate::survey_fault::SurveyFault;
use info_header::head_text;
use outside::{Feed, Folder};

/// The head that the frame is, if it is one. `bytes` begin with all of the frame's own.
pub fn head_in(frame: &PlacedFrame, bytes: &[u8]) -> Option<Head>
    // Said here, where the header is known to be one of the standard.
    ensures most { length_of (class_of frame.now.header) frame.now.header.slot ≤ most_frame_length }
    ensures head { result ≡ head_in_bytes frame.now (own_bytes frame.now bytes.now) }
    ensures same { IfSome result (IsFrameOf frame.now) }
{
    let length = frame.header.length() as usize;
    let own = bytes.get(..length).unwrap_or(bytes);
    let text_at = head_text(&frame.header, own)?;
    Some(Head {
        offset: frame.offset,
        header: frame.header,
        text_at,
    })
}

/// The head that the first frame is, if it is one.
///
/// # Errors
/// `Read` or `Shrunk` if the file can't be read.
#[tactic(auto, unfolding(crate::specs::Walk::head_of))]
pub fn find_head<D: Folder>(
    feed: &mut Feed,
    folder: &mut D,
    name: &str,
    size: u64,
    first: &PlacedFrame,
) -> Result<Option<Head>, SurveyFault>
    requires known { HasLength (D.seen folder.old).files name.now size }
    requires fed { IsFedFrom feed.old (D.seen folder.old).files name.now }
    requires whole { first.now.offset + size_of (Frame first.now.header) ≤ size }
    ensures head { IfOk result (IsHeadOf name.now (D.seen folder.old).files first.now) }
    // Whether or not the content of the files is known.
    ensures same { IfOk result (λ o. IfSome o (IsFrameOf first.now)) }
    ensures reads { ReadsBy feed.new name.now result (D.seen folder.old) (D.seen folder.new) }
    ensures refused { IfErr result (IsEarlyRefusal name.now (D.seen folder.old)
        (D.seen folder.new)) }
    ensures outside { IfErr result IsFromOutside }
{
    look(feed, folder, name, size, first.offset)?;
    Ok(head_in(first, feed.bytes()))
}

/// The length of the head's area in bytes, or 0 without a head. Main data may begin in it.
pub fn head_area(head: &Option<Head>) -> u64
    ensures area { result ≡ head_area head.now }
    ensures most { result ≤ most_frame_length }
{
    match head {
        Some(head) => u64::from(head.header.area()),
        None => 0,
    }
}

/// The offset at which the numbered frames begin: the beginning of the first frame, or its end if
/// it is the head.
pub fn numbered_from(first: &PlacedFrame, head: &Option<Head>) -> u64
    requires { first.now.offset + size_of (Frame first.now.header) ≤ 2 ^ 62 }
    ensures at { result ≡ numbered_offset first.now head.now }
    ensures within { result ≤ first.now.offset + size_of (Frame first.now.header) }
    ensures behind { first.now.offset ≤ result }
{
    match head {
        Some(_) => first.offset + u64::from(first.header.length()),
        None => first.offset,
    }
}
