//! What each job does, and the names of its files.
ghost use Rattle.std.specs.Prelude.{◌≡◌, ◌≤◌, length, map, string_bytes, OnOk};
ghost use Rattle.outside.specs.Counts.{NoneFell};
ghost use Rattle.commands.specs.Kept.{asked_of};
ghost use Rattle.commands.specs.Command.{HoldsStreams};
ghost use Rattle.commands.specs.SentText.{answer_fault};
ghost use Rattle.commands.specs.Runs.{IsRunOf};
ghost use Rattle.job_words.specs.Request.{SplitBy, Join, IsSoundRequest, job_request};
ghost use Rattle.program_texts.specs.Names.{names_of_outputs};
ghost use Rattle.command_table.specs.Table.{command_of, inputs_of, outputs_of};
ghost use Rattle.mp3_cli.specs.Run.{CommandEnds};

use arrayvec::ArrayVec;
use commands::EditFault;
use cut_edits::{cut, cut_exact};
use drill::drill;
use gain_edits::{fade, gain, undo};
use job_words::Job;
use join_edits::join;
use list_edits::{info, list};
use outside::{Folder, Sink};
use pack_edits::pack_with;
use program_texts::{Outputs, say_help, say_version};
use remove_edits::remove;
use salvage_edits::salvage;
use seamless_edits::join_seamless;
use split_edits::{ExactPoints, Points, split, split_exact};
use std::alloc::Global;

// ---- its files

/// Names, 64 at most.
type Names<'a> = ArrayVec<&'a str, 64>;

/// The names of the files that a job reads and writes.
#[derive(Drop)]
pub(crate) struct JobFiles<'a> {
    pub(crate) inputs: Names<'a>,
    pub(crate) outputs: Outputs<'a>,
}

// The words as names.
fn names_of(words: &[String]) -> Names<'_>
    requires { length words.now ≤ 64 }
    ensures { map (λ name. name.now) result.items ≡ map string_bytes words.now }
{
    let mut names = Names::new();
    for word in words {
        names.push(word.as_str());
    }
    names
}

// Files with these names.
fn files<'a>(inputs: &[&'a str], outputs: Outputs<'a>) -> JobFiles<'a>
    requires { length inputs.now ≤ 64 }
    ensures inputs { result.inputs.items ≡ inputs.now }
    ensures outputs { result.outputs ≡ outputs.entry }
{
    let mut names = Names::new();
    names.try_extend_from_slice(inputs).unwrap();
    JobFiles {
        inputs: names,
        outputs,
    }
}

/// The names of the files that a job reads and writes.
pub(crate) fn files_of<'a>(job: &Job<'a>) -> JobFiles<'a>
    requires { IsSoundRequest (job_request job.now) }
    ensures inputs { map (λ name. name.now) result.inputs.items
        ≡ inputs_of (job_request job.now) }
    ensures outputs { names_of_outputs result.outputs ≡ outputs_of (job_request job.now) }
{
    match *job {
        Job::Help | Job::Version | Job::Drill { .. } => files(&[], Outputs::None),
        Job::List { input } | Job::Info { input } => files(&[input], Outputs::None),
        Job::Gain { input, output, .. }
        | Job::Undo { input, output }
        | Job::Cut { input, output, .. }
        | Job::CutExact { input, output, .. }
        | Job::Pack { input, output, .. }
        | Job::Remove { input, output, .. }
        | Job::Salvage { input, output } => files(&[input], Outputs::One(output)),
        Job::Fade {
            input,
            output,
            sheet,
            ..
        } => files(&[input, sheet], Outputs::One(output)),
        Job::SplitAt { input, prefix, .. } | Job::SplitExact { input, prefix, .. } => {
            files(&[input], Outputs::Pieces(prefix))
        }
        Job::SplitBy {
            input,
            prefix,
            sheet,
            ..
        } => files(&[input, sheet], Outputs::Pieces(prefix)),
        Job::Join { output, inputs, .. } => JobFiles {
            inputs: names_of(inputs),
            outputs: Outputs::One(output),
        },
    }
}

// ---- what it does

/// Cuts the input at the starts in a cue sheet, to a frame or to a sample. It is refused where the command's own call is.
fn split_by_sheet<D: Folder>(
    alloc: Global,
    folder: &mut D,
    exact: bool,
    input: &str,
    prefix: &str,
    sheet: &str,
) -> Result<(), EditFault>
    ensures { IsRunOf
        (asked_of D.keeping (command_of (SplitBy exact input.now prefix.now sheet.now)))
        (D.seen folder.old)
        (D.seen folder.new) result }
{
    if exact {
        split_exact(alloc, folder, input, &ExactPoints::Sheet(sheet), prefix)
    } else {
        split(alloc, folder, input, &Points::Sheet(sheet), prefix)
    }
}

/// Joins the inputs, 1 to 64, with all their frames, or without the frames that only a piece needs. It is refused where the
/// command's own call is.
fn join_files<D: Folder, T: Sink>(
    alloc: Global,
    folder: &mut D,
    seamless: bool,
    output: &str,
    inputs: &[String],
    out: &mut T,
) -> Result<(), EditFault>
    requires some { 1 ≤ length inputs.now }
    requires few { length inputs.now ≤ 64 }
    ensures ends { CommandEnds (asked_of D.keeping (command_of
        (Join seamless output.now (map string_bytes inputs.now))))
        (D.seen folder.old)
        (D.seen folder.new)
        (T.heard out.old) (T.heard out.new)
        (answer_fault result) }
    ensures streams { OnOk result (HoldsStreams (asked_of D.keeping
        (command_of (Join seamless output.now (map string_bytes inputs.now))))
        (D.seen folder.old).files) }
    ensures counts { NoneFell (D.seen folder.old).counts (D.seen folder.new).counts }
{
    if seamless {
        join_seamless(alloc, folder, output, inputs, out)
    } else {
        join(alloc, folder, output, inputs)
    }
}

/// What each kind of job does, by the names of its fields.
macro_rules! does {
    ($job:ident: $($kind:ident $({ $($field:ident),* })? => $call:expr;)*) => {
        match $job { $(Job::$kind $({ $($field),* })? => $call,)* }
    };
}

/// Does what the job asks for. It is refused where the command's own call is.
pub(crate) fn do_job<D: Folder, T: Sink>(
    alloc: Global,
    job: Job,
    folder: &mut D,
    out: &mut T,
) -> Result<(), EditFault>
    requires sound { IsSoundRequest (job_request job) }
    ensures ends { CommandEnds (asked_of D.keeping (command_of (job_request job.entry)))
        (D.seen folder.old)
        (D.seen folder.new)
        (T.heard out.old) (T.heard out.new)
        (answer_fault result) }
    ensures streams { OnOk result
        (HoldsStreams (asked_of D.keeping (command_of (job_request job.entry)))
        (D.seen folder.old).files) }
    ensures counts { NoneFell (D.seen folder.old).counts (D.seen folder.new).counts }
{
    does!(job:
        Help => say_help(out);
        Version => say_version(out);
        List { input } => list(alloc, folder, input, out);
        Info { input } => info(alloc, folder, input, out);
        Gain { shift, tags, input, output } => gain(alloc, folder, input, output, &shift, tags);
        Undo { input, output } => undo(alloc, folder, input, output);
        Cut { from, to, least, input, output } => cut(alloc, folder, input, &from, &to, least, output);
        CutExact { input, from, to, output } => cut_exact(alloc, folder, input, &from, &to, output);
        Pack { mode, input, output } => pack_with(alloc, folder, input, output, &mode);
        SplitAt { input, prefix, places } =>
            split(alloc, folder, input, &Points::Places(places.as_slice()), prefix);
        SplitExact { input, prefix, places } =>
            split_exact(alloc, folder, input, &ExactPoints::Places(places.as_slice()), prefix);
        SplitBy { exact, input, prefix, sheet } => split_by_sheet(alloc, folder, exact, input, prefix, sheet);
        Join { seamless, output, inputs } => join_files(alloc, folder, seamless, output, inputs, out);
        Remove { input, output, stretches } => remove(alloc, folder, input, output, stretches.as_slice());
        Drill { seed, count } => drill(alloc, seed, count, out);
        Fade { back, input, output, sheet } => fade(alloc, folder, input, output, sheet, back);
        Salvage { input, output } => salvage(alloc, folder, input, output, out);
    )
}
