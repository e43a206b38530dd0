//! The command `fade` over a folder.
ghost use Rattle.commands.specs.Kept.{asked_of};
ghost use Rattle.commands.specs.Runs.{IsRunOf};
ghost use Rattle.gain_edits.specs.Fade.{fade_command};

use crate::fade_edit::FadeEdit;
use commands::{EditFault, make_one};
use outside::Folder;
use std::alloc::Global;

/// Writes the output: the input without the junk before its first frame and with the gains of each
/// frame moved, on all channels, by the steps of 1.5 dB that the curve of the sheet has at the
/// frame's number, except those of silent granules and of lost frames; with `back` by as many steps
/// the other way. The check words of protected frames that change are recomputed. Tags are neither
/// read nor changed.
///
/// # Errors
/// In this order: `EqualNames(0)` and `EqualNames(1)` if the output's name is the name of the input
/// or of the sheet, byte for byte; `Input(0, ..)` with the fault of the survey of the input, which
/// may have 2,900,000 frames; for the sheet `Input(1, ..)` with `Absent` and `Read`,
/// `SheetTooLarge` with its length above 65,536 bytes, and `Input(1, ..)` with `Shrunk`; `Curve`
/// with the fault of its bytes; `CurveNotRising` with the first line, counted from 1, whose point
/// isn't at a later frame than the point before; `GainRange` for the first gain to be moved that
/// would leave the range from 0 to 255. After these nothing was created.
///
/// `Input` with `Read` and `Write(0)` are returned only if a call of that kind failed, `Input` with
/// `Absent` only if that input isn't there, and any other result only if no call failed. `Input(0,
/// ..)` with `Read` or `Shrunk` may also be returned while the output is written; after it, and
/// after `Write(0)`, the output is as it was or holds a prefix of its bytes, and after `Write(0)`
/// not all of them. `Memory` may be returned once the input was found with a length that it may
/// have, before the output is created, but not from then on.
pub fn fade<D: Folder>(
    alloc: Global,
    folder: &mut D,
    input: &str,
    output: &str,
    sheet: &str,
    back: bool,
) -> Result<(), EditFault>
    // The input is well-formed, and the output holds its stream with each frame's gains moved by its steps.
    ensures { IsRunOf (asked_of D.keeping (fade_command sheet.now back input.now output.now))
        (D.seen folder.old)
        (D.seen folder.new) result }
{
    make_one(alloc, folder, &FadeEdit { input, sheet, back }, output)
}
