//! The commands `gain` and `undo` over a folder.
ghost use Rattle.commands.specs.Kept.{asked_of};
ghost use Rattle.commands.specs.Runs.{IsRunOf};
ghost use Rattle.gain_edits.specs.Gain.{gain_command};
ghost use Rattle.gain_edits.specs.Undo.{undo_command};

use crate::changes::Changes;
use crate::edit::GainEdit;
use commands::{EditFault, make_one};
use outside::Folder;
use requests::Shift;
use std::alloc::Global;

/// Writes the output: the input without the junk before its first frame and with its gains moved by
/// the shift, except those of silent granules and of lost frames. The check words of protected
/// frames that change are recomputed. With `tags` the change is noted in the file's tag, which is
/// its first APEv2 block, or a new one right after the last frame: the item `MP3GAIN_UNDO` then
/// holds the steps that undo this change and all that it held before. Without `tags`, tags are
/// neither read nor changed.
///
/// # Errors
/// In this order: `EqualNames(0)` if the names are equal, byte for byte; `Input(0, ..)` with the
/// fault of the survey of the input, which may have 2,900,000 frames; with `tags` `TagTooLarge`
/// with the length of a tag of more than 1,048,576 bytes, `BadTag` with the offset in bytes of its
/// first fault, and `BadUndo` with the offset of an undo item whose value is malformed; if one
/// channel alone is to change, `Mono` if there is only one, and `Joint` with the offset of the
/// first frame of joint stereo; with `tags` `UndoRange` with a number of the new undo item that
/// isn't from -999 to 999, `TagTooLarge` and `OutputTooLong` with the length in bytes of the new
/// tag and of the output; without wrap `GainRange` for the first gain to be moved that would leave
/// the range from 0 to 255. After these nothing was created.
///
/// `Input` with `Read` and `Write(0)` are returned only if a call of that kind failed, `Input` with
/// `Absent` only if the input isn't there, and any other result only if no call failed. `Input(0,
/// ..)` with `Read` or `Shrunk` may also be returned while the output is written; after it, and
/// after `Write(0)`, the output is as it was or holds a prefix of its bytes, and after `Write(0)`
/// not all of them. `Memory` may be returned once the input was found with a length that it may
/// have, before the output is created, but not from then on.
pub fn gain<D: Folder>(
    alloc: Global,
    folder: &mut D,
    input: &str,
    output: &str,
    shift: &Shift,
    tags: bool,
) -> Result<(), EditFault>
    // The input is well-formed, and the output holds its stream with each gain moved.
    ensures { IsRunOf (asked_of D.keeping (gain_command shift.now tags input.now output.now))
        (D.seen folder.old)
        (D.seen folder.new) result }
{
    let changes = Changes::Move(shift, tags);
    make_one(alloc, folder, &GainEdit { input, changes }, output)
}

/// Writes the output: the input without the junk before its first frame and with the changes undone
/// that the undo item of its tag lists. The left number of steps is added to the gains of channel
/// 0, the right one to the gains of channel 1, modulo 256 if it has `W`, except for silent granules
/// and lost frames. The item is removed, and with it a tag that has no other item.
///
/// # Errors
/// In this order: `EqualNames(0)` if the names are equal, byte for byte; `Input(0, ..)` with the
/// fault of the survey of the input, which may have 2,900,000 frames; `TagTooLarge` with the length
/// of a tag of more than 1,048,576 bytes; `BadTag` with the offset in bytes of its first fault;
/// `NoUndo` if there is no tag, or no undo item in it; `BadUndo` with the offset of an item whose
/// value is malformed; if the item doesn't have `W`, `GainRange` for the first gain to be moved
/// that would leave the range from 0 to 255. After these nothing was created. For all other results
/// see `gain`.
pub fn undo<D: Folder>(
    alloc: Global,
    folder: &mut D,
    input: &str,
    output: &str,
) -> Result<(), EditFault>
    // The input is well-formed, and the output holds its stream with each gain moved back.
    ensures { IsRunOf (asked_of D.keeping (undo_command input.now output.now))
        (D.seen folder.old)
        (D.seen folder.new) result }
{
    let changes = Changes::Undo;
    make_one(alloc, folder, &GainEdit { input, changes }, output)
}
