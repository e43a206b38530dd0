//! The salvage command over a folder.
ghost use Rattle.std.specs.Prelude.{◌≡◌, None};
ghost use Rattle.commands.specs.Kept.{asked_of};
ghost use Rattle.commands.specs.Command.{clash_of};
ghost use Rattle.commands.specs.Runs.{IsRunOf};
ghost use Rattle.commands.specs.SentText.{SaysText, answer_fault};
ghost use Rattle.salvage_edits.specs.Ready.{IsSalvageReady};
ghost use Rattle.salvage_edits.specs.Salvaged.{salvage_command};

use crate::prepared::prepare;
use crate::report::send_report;
use crate::work::SalvageWork;
use commands::{EditFault, Inputs, ask_all, write_output};
use outside::{Failed, Folder, Sink};
use std::alloc::Global;

/// Writes the output, and then sends to `out` what is missing. The command's names don't clash, and
/// all is prepared.
///
/// # Errors
/// Those of `salvage` from the first byte written on.
fn write_and_tell<D: Folder, T: Sink>(
    folder: &mut D,
    input: &str,
    output: &str,
    work: &mut SalvageWork,
    out: &mut T,
) -> Result<(), EditFault>
    requires free { clash_of (salvage_command input.now output.now) ≡ None }
    requires ready { IsSalvageReady input.now (D.seen folder.old).files work.old }
    ensures run { IsRunOf (salvage_command input.now output.now)
        (D.seen folder.old)
        (D.seen folder.new) result }
    ensures says { SaysText (salvage_command input.now output.now) (D.seen folder.old).files
        (T.heard out.old) (T.heard out.new)
        (answer_fault result) }
{
    let count = work.laid.survey.frames().len() as u64;
    write_output(folder, input, output, &mut work.laid)?;
    match send_report(&work.report, count, &mut work.sending, out) {
        Ok(()) => Ok(()),
        Err(Failed) => Err(EditFault::Sent),
    }
}

/// Reads what can be read of a damaged file (`salvage::read_damaged`), writes what is left to the
/// output, and then sends to `out` what is missing. The output is laid out as a cut's: the ID3v2
/// blocks before the first frame, an Info frame whose extension is all 0, a lead-in if the first
/// frames need one, all frames with their own bit rates and padding, and all other blocks that were
/// read. A frame whose main data are missing, overlap others or don't fit becomes an empty one, and
/// all others stay as they were.
///
/// | line | what it says |
/// |---|---|
/// | `gap at O: L bytes` | L bytes from offset O on that were not read |
/// | `empty frame I at O` | frame I, counted from 0 without the head, at offset O, that became an empty one |
/// | `N frames, G gaps, E empty` | how many there are; the last line |
///
/// The lines before the last are in order of offset.
///
/// # Errors
/// In this order: `EqualNames(0)` if the output has the input's name, byte for byte; `Input(0, ..)`
/// with the fault of the reading; `Memory`; and in a folder that keeps what is there
/// `Refused(Exists(0))` if the output is there, and `Write(0)` if the call that asks for it failed.
/// After these nothing was created and nothing sent.
/// `Input(0, ..)` with `Read` or `Shrunk`, and `Write(0)`, if a call failed, or the input became
/// shorter, while the output was written; then the output is as it was or holds a prefix of its
/// bytes, with `Write(0)` not all of them, and nothing was sent. `Sent` if a write to `out` failed;
/// then the output is whole, and a prefix of the text was sent.
pub fn salvage<D: Folder, T: Sink>(
    alloc: Global,
    folder: &mut D,
    input: &str,
    output: &str,
    out: &mut T,
) -> Result<(), EditFault>
    // The output is well-formed, and holds what is left of the input, after at most one lead-in.
    ensures run { IsRunOf (asked_of D.keeping (salvage_command input.now output.now))
        (D.seen folder.old)
        (D.seen folder.new) result }
    // The text; a prefix of it was sent if a write failed.
    ensures says { SaysText (asked_of D.keeping (salvage_command input.now output.now))
        (D.seen folder.old).files (T.heard out.old) (T.heard out.new)
        (answer_fault result) }
{
    let inputs = Inputs {
        source: input,
        sheet: None,
    };
    if let Some(place) = inputs.clash(output) {
        return Err(EditFault::EqualNames(place));
    }
    let mut work = prepare(alloc, folder, input)?;
    ask_all(folder, &[output])?;
    write_and_tell(folder, input, output, &mut work, out)
}
