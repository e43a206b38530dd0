//! The command `remove` over a folder.
ghost use Rattle.std.specs.Prelude.{◌≤◌, length};
ghost use Rattle.commands.specs.Kept.{asked_of};
ghost use Rattle.commands.specs.Runs.{IsRunOf};
ghost use Rattle.remove_edits.specs.Removed.{remove_command};
ghost use Rattle.remove_edits.specs.Ready.{AreExactStretches};

use crate::edit::RemoveEdit;
use commands::{EditFault, make_one};
use exact_span::ExactPlace;
use outside::Folder;
use std::alloc::Global;

/// Writes the output: the input without some stretches of its frames, 1 to 50, with all main data
/// of the frames that stay. A stretch is the frames from the one that its first place names up to,
/// but not including, the one that its second place names; places name frames counted from the
/// first, whatever players leave out. Stretches are in order and don't overlap; they may touch.
///
/// The output consists of the input's ID3v2 blocks before its first frame or head, an Info frame,
/// the frames that stay, and all other blocks. The longest ranges of frames that stay are laid as
/// one splice (ISO/IEC 11172-3, 2.4.2.7), in which each frame keeps its own bit rate and padding. But
/// the first frame behind a stretch has the least greater slot with which there is room for the
/// main data of this frame and the later ones; where no slot is enough, a lead-in, one silent frame,
/// comes before it, and it keeps its own. A lead-in comes before the whole splice if its first frames
/// need more room than they have themselves.
///
/// If the input's head counts, and something of what it counts stays, the Info frame has the quality
/// of that head and its extension with the encoder delay and the padding with which players play
/// what they played of the frames that stay, and with music length and tag CRC; unless one of the
/// two numbers has more than 12 bits. Otherwise it has neither. The head's area isn't main data
/// here, since players leave the head out: a frame whose main data begin in it is lost too, if every
/// frame before it is silent or lost, and lost frames are written as empty ones.
///
/// # Errors
/// In this order: `EqualNames(0)` if the names are equal, byte for byte; `Input(0, ..)` with the
/// fault of the survey of the input, which may have 2,900,000 frames; `Range` with two numbers and
/// the number of all frames: the first two neighbours among the numbers of the stretches that aren't
/// in order, so those of a stretch without a frame or beyond the last frame, or the end of one
/// stretch and the beginning of the next if that is before it; or 0 and the number of all frames, if
/// no frame stays; `Input(0, ..)` with `Read` or `Shrunk` if the head could not be read. Then, in a
/// folder that keeps what is there, `Refused(Exists(0))` if the output is there, and `Write(0)` if
/// the call that asks for it failed. After these nothing was created.
///
/// `Input` with `Read` and `Write(0)` are returned only if a call of that kind failed, `Input` with
/// `Absent` only if the input isn't there, and any other result only if no call failed. `Input(0,
/// ..)` with `Read` or `Shrunk` may also be returned while the output is written; after it, and
/// after `Write(0)`, the output is as it was or holds a prefix of its bytes. `Memory` may be
/// returned once the input was found with a length that it may have, before the output is created,
/// but not from then on.
pub fn remove<D: Folder>(
    alloc: Global,
    folder: &mut D,
    input: &str,
    output: &str,
    stretches: &[(ExactPlace, ExactPlace)],
) -> Result<(), EditFault>
    requires few { length stretches.now ≤ 50 }
    requires exact { AreExactStretches stretches.now }
    // The input is well-formed, and the output holds exactly the frames that stay, each part of them after at most one lead-in.
    ensures { IsRunOf (asked_of D.keeping (remove_command stretches.now input.now output.now))
        (D.seen folder.old)
        (D.seen folder.new) result }
{
    let edit = RemoveEdit { input, stretches };
    make_one(alloc, folder, &edit, output)
}
