//! The command `pack` over a folder, in each of its modes.
ghost use Rattle.std.specs.Prelude.{OnOk};
ghost use Rattle.commands.specs.Kept.{asked_of};
ghost use Rattle.commands.specs.Runs.{IsRunOf};
ghost use Rattle.pack_edits.specs.Modes.{pack_mode_command};
ghost use Rattle.pack_edits.specs.Fewest.{WritesFewest};

use crate::edit::PackEdit;
use commands::{EditFault, make_one};
use outside::Folder;
use requests::PackMode;
use std::alloc::Global;

/// Writes the output: all frames of the input, each with the least bit rate and padding that the
/// mode allows and with which there is room for all main data (ISO/IEC 11172-3, 2.4.2.7). It
/// consists of the input's ID3v2 blocks before the first frame, an Info frame with the quality and
/// extension of the input's head, the frames, and all other blocks. A lead-in, one silent frame,
/// comes first if there is no room for the main data without it. With `PackMode::Best` the frames
/// have the bit rates and padding with which they take the fewest bytes in all; of several such
/// lists, those of the first in order of areas.
///
/// # Errors
/// In this order: `EqualNames(0)` if the names are equal, byte for byte; `Input(0, ..)` with the
/// fault of the survey of the input, which may have 2,900,000 frames, or 200,000 with
/// `PackMode::Best`; `NoRate` with the bit rate of the mode, in kbit/s, if it isn't a bit rate of
/// the input's class; `Unfit` with the first frame, counted from 0, up to which there is no room
/// for the main data, even after a lead-in. `NoRate` is returned only with `PackMode::Constant` and
/// `PackMode::Floor`, and `Unfit` only with `PackMode::Constant`. After these nothing was created.
///
/// `Input` with `Read` and `Write(0)` are returned only if a call of that kind failed, `Input` with
/// `Absent` only if the input isn't there, and any other result only if no call failed. `Input(0,
/// ..)` with `Read` or `Shrunk` may also be returned while the output is written; after it, and
/// after `Write(0)`, the output is as it was or holds a prefix of its bytes, and after `Write(0)`
/// not all of them. `Memory` may be returned once the input was found with a length that it may
/// have, before the output is created, but not from then on.
pub fn pack_with<D: Folder>(
    alloc: Global,
    folder: &mut D,
    input: &str,
    output: &str,
    mode: &PackMode,
) -> Result<(), EditFault>
    // The input is well-formed, and the output holds its stream.
    ensures run { IsRunOf (asked_of D.keeping (pack_mode_command mode.now input.now output.now))
        (D.seen folder.old)
        (D.seen folder.new) result }
    // With `PackMode::Best`, and if the folder's contents are known, no file of the same frames in
    // other slots, with its lead-in where this one has it or with none, has fewer bytes.
    ensures fewest { OnOk result (WritesFewest mode.now input.now output.now
        (D.seen folder.old).files (D.seen folder.new).files) }
{
    make_one(alloc, folder, &PackEdit { input, mode: *mode }, output)
}
