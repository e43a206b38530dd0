//! The join command over a folder.
ghost use Rattle.std.specs.Prelude.{◌≤◌, length, map, string_bytes};
ghost use Rattle.commands.specs.Kept.{asked_of};
ghost use Rattle.commands.specs.Runs.{IsRunOf};
ghost use Rattle.join_edits.specs.Join.{join_command};

use crate::planned::prepare;
use commands::{EditFault, ask_all, clash};
use joined_inputs::{survey_all, write_joined};
use outside::Folder;
use std::alloc::Global;

/// Writes the output: all frames of the inputs, 1 to 64 of one class, in their order and with all
/// main data. It consists of the ID3v2 blocks of the first input before its first frame, an Info
/// frame, and the frames in the slots of their plan, each with its own bit rate and padding
/// (ISO/IEC 11172-3, 2.4.2.7). A lead-in, one silent frame, comes before the frames of each input
/// whose first frames need more room for their main data than there is. No other block of any input
/// is written.
///
/// # Errors
/// In this order: `EqualNames` with the number of the first input, counted from 0, whose name is
/// the output's, byte for byte; then for each input in order `Input` with its number and the fault
/// of its survey, which allows as many frames as the inputs before it leave of 2,900,000, and
/// `Differ` with its number if its version, frequency or channels differ from the first input's.
/// Then, in a folder that keeps what is there, `Refused(Exists(0))` if the output is there, and `Write(0)` if the call that asks
/// for it failed. After these nothing was created. A file may be named twice.
///
/// `Input` with `Read` and `Write(0)` are returned only if a call of that kind failed, `Input` with
/// `Absent` only if that input isn't there, and any other result only if no call failed. `Input`
/// with `Read` or `Shrunk` may also be returned while the output is written; after it, and after
/// `Write(0)`, the output is as it was or holds a prefix of its bytes, and after `Write(0)` not all
/// of them. `Memory` may be returned once the first input was found with a length that it may have,
/// before the output is created, but not from then on.
pub fn join<D: Folder>(
    alloc: Global,
    folder: &mut D,
    output: &str,
    inputs: &[String],
) -> Result<(), EditFault>
    requires some { 1 ≤ length inputs.now }
    requires few { length inputs.now ≤ 64 }
    // The inputs are well-formed, and the output holds the lead-ins and exactly the frames of their streams.
    ensures { IsRunOf (asked_of D.keeping (join_command output.now (map string_bytes inputs.now)))
        (D.seen folder.old)
        (D.seen folder.new) result }
{
    if let Some(place) = clash(output, inputs) {
        return Err(EditFault::EqualNames(place));
    }
    let sources = survey_all(alloc, folder, inputs)?;
    let mut work = prepare(alloc, &sources)?;
    ask_all(folder, &[output])?;
    write_joined(folder, output, &sources, &mut work)
}
