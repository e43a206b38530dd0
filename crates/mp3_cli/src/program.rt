//! All that the program does.
ghost use Rattle.std.specs.Prelude.{◌≡◌, ◌||◌, map, string_bytes};
ghost use Rattle.outside.specs.Counts.{NoneFell};
ghost use Rattle.commands.specs.Command.{HoldsStreams};
ghost use Rattle.commands.specs.Kept.{asked_of};
ghost use Rattle.commands.specs.SentText.{answer_fault};
ghost use Rattle.job_words.specs.Request.{IsSoundRequest, job_request};
ghost use Rattle.program_texts.specs.Names.{names_of_outputs};
ghost use Rattle.program_texts.specs.Texts.{GotLine};
ghost use Rattle.command_table.specs.Table.{command_of};
ghost use Rattle.mp3_cli.specs.Run.{fault_status, result_line, seen_kept, world, CommandAnswers, ProgramRun};

use crate::jobs::{do_job, files_of};
use commands::EditFault;
use job_words::{Job, job, keeps};
use outside::{Folder, KeptFolder, Sink};
use program_texts::{Outputs, send_bad_word, send_fault, status};
use std::alloc::Global;

/// Sends the line of a fault, if there is one, and returns the status.
fn report<E: Sink>(
    err: &mut E,
    done: Result<(), EditFault>,
    inputs: &[&str],
    outputs: &Outputs,
) -> u8
    ensures status { result ≡ fault_status (answer_fault done) }
    ensures line { GotLine (E.heard err.old).sent (E.heard err.new).sent (E.heard err.old).faults
        (E.heard err.new).faults (result_line (map (λ name. name.now) inputs.now)
        (names_of_outputs outputs.now) (answer_fault done)) }
{
    match done {
        Ok(()) => 0,
        Err(fault) => {
            send_fault(err, &fault, inputs, outputs);
            status(&fault)
        }
    }
}

/// Does what the job asks for, reports how it ended, and returns the status.
fn run_job<D: Folder, T: Sink, E: Sink>(
    alloc: Global,
    job: Job,
    folder: &mut D,
    out: &mut T,
    err: &mut E,
) -> u8
    requires sound { IsSoundRequest (job_request job) }
    ensures answers { CommandAnswers (asked_of D.keeping (command_of (job_request job.entry)))
        (world (D.seen folder.old)
        (T.heard out.old) (E.heard err.old))
        (world (D.seen folder.new)
        (T.heard out.new) (E.heard err.new))
        result }
    ensures streams { result ≡ 0
        → HoldsStreams (asked_of D.keeping (command_of (job_request job.entry)))
        (D.seen folder.old).files }
    ensures counts { NoneFell (D.seen folder.old).counts (D.seen folder.new).counts }
{
    let files = files_of(&job);
    let done = do_job(alloc, job, folder, out);
    report(err, done, files.inputs.as_slice(), &files.outputs)
}

/// Does what the job asks for, as `run_job`. With `keeps` all that is there is kept: the folder is only asked to make what
/// isn't there, and is seen as one that does so.
fn run_kept<D: Folder, T: Sink, E: Sink>(
    alloc: Global,
    keeps: bool,
    job: Job,
    folder: &mut D,
    out: &mut T,
    err: &mut E,
) -> u8
    requires sound { IsSoundRequest (job_request job) }
    ensures answers { CommandAnswers
        (asked_of (D.keeping || keeps) (command_of (job_request job.entry)))
        (world (seen_kept keeps (D.seen folder.old))
        (T.heard out.old) (E.heard err.old))
        (world (seen_kept keeps (D.seen folder.new))
        (T.heard out.new) (E.heard err.new))
        result }
    ensures streams { result ≡ 0 → HoldsStreams
        (asked_of (D.keeping || keeps) (command_of (job_request job.entry)))
        (seen_kept keeps (D.seen folder.old)).files }
    ensures counts { NoneFell (D.seen folder.old).counts (D.seen folder.new).counts }
{
    if keeps {
        run_job(alloc, job, &mut KeptFolder::new(folder), out, err)
    } else {
        run_job(alloc, job, folder, out, err)
    }
}

/// Does what the words ask for over the folder, and returns the status: 0 where it was done; 1 where an input, or what was
/// asked of it, was refused; 2 for a bad word; 3 for an absent file, a failed call of the folder, a file that became shorter,
/// or a failed write to `out`; 4 if memory ran out.
///
/// With `-n` as the first word nothing that is there can be lost. A command that would write a file that is there, or anything
/// else under its name, is refused before the first is created, with status 1; and of the folder's calls that write only
/// `create_new` is made, and `write` to what it made.
///
/// With every status except 0 one line is sent to `err`, without allocating memory; a failed write there
/// changes nothing else. All memory is allocated before an output is created, and before the first byte is
/// sent to `out`.
pub fn run<D: Folder, T: Sink, E: Sink>(
    alloc: Global,
    words: &[String],
    folder: &mut D,
    out: &mut T,
    err: &mut E,
) -> u8
    ensures { ProgramRun D.keeping (map string_bytes words.now)
        (world (D.seen folder.old)
        (T.heard out.old) (E.heard err.old))
        (world (D.seen folder.new)
        (T.heard out.new) (E.heard err.new))
        result }
{
    match job(words) {
        Err(word) => {
            send_bad_word(err, word);
            2
        }
        Ok(job) => run_kept(alloc, keeps(words), job, folder, out, err),
    }
}
