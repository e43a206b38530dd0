//! What the Info frame keeps of the input's head.
ghost use Rattle.std.specs.Prelude.{◌≡◌, option_copied};
ghost use Rattle.remove_edits.specs.Removed.{kept_of_written};

use cut_edits::quality_of;
use exact_span::{Played, WrittenFrames, extension, heard};
use frame_header::Class;
use info_header::Info;
use laying::Kept;

/// The quality of the head of a file of `frames` frames, and its extension with the delay and the
/// padding with which players play what they played of the frames that are written, `places` frames
/// with their lead-ins. `None` if the head doesn't count, if nothing of what it counts is left, or
/// if a number has more than 12 bits.
pub(crate) fn kept_of(
    class: Class,
    head: Option<&Info>,
    frames: u32,
    written: &[WrittenFrames],
    places: u32,
) -> Option<Kept>
    ensures { result ≡ kept_of_written (option_copied head.entry) class frames written.now places }
{
    let played = Played::counted(head, class, frames)?;
    let heard = heard(&played, class, written)?;
    let (delay, padding) = heard.numbers(class, places)?;
    Some(Kept {
        quality: quality_of(head),
        extension: extension(head, delay, padding),
    })
}
