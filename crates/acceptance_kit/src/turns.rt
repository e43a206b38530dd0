//! Rows in which one call fails: the first of its kind, the second and so on, each in its own run, until none does.
//!
//! A line `each Read 3 after 65536 a: read fault, s: read fault` says which kind of calls it is, `Send` for writes to standard output;
//! how many calls are made at least; optionally, how many bytes at least were written when the last one is made (`after`), or from one
//! to the next (`by`); and the line of the run where the first call fails, where the second does, and so on, the last of them where a
//! later one does.
//!
//! A run where a call fails ends with status 3 and this line, the files as they were, and the outputs, in the order in which the row
//! names them, whole up to one, of which a prefix is there, with nothing after it. A run where no call fails ends with status 0 and
//! all outputs whole. The text counts as the last output.

use command_runs::before::{call_of, fail_call, prepare};
use command_runs::differences::{Found, wants_memory};
use command_runs::ended::{is_line, other_line};
use command_runs::files::{compare_kept, compare_outputs};
use command_runs::lines::{last_said, parted, said};
use command_runs::progress::{Progress, progress_of};
use command_runs::running::{Ended, Program, run_failing};
use command_runs::stop::Stop;
use outside::{Call, MemFolder};
use std::alloc::Global;
use test_files::texts::{Named, number_of};

/// More calls of one kind than any of these commands makes.
const MOST: usize = 60;

/// Calls of one kind, and the lines of the runs where one fails.
#[derive(Clone, Copy)]
struct Calls {
    /// A call of the folder; `None` for a write to standard output.
    call: Option<Call>,
    least: usize,
    after: usize,
    by: usize,
    lines: &'static str,
}

/// A call that fails, the line of its run, and the text of a run where none does.
#[derive(Clone, Copy)]
struct Failing<'a> {
    call: Option<Call>,
    number: usize,
    line: &'static str,
    text: &'a [u8],
}

/// The number of bytes after this word, and the rest of the line.
fn parted_bytes(word: &'static str, rest: &'static str) -> Result<(usize, &'static str), Stop> {
    match rest.strip_prefix(word) {
        Some(rest) => {
            let (bytes, rest) = parted(rest);
            Ok((number_of(bytes)?, rest))
        }
        None => Ok((0, rest)),
    }
}

fn calls_of(line: &'static str) -> Result<Calls, Stop> {
    let (kind, rest) = parted(line);
    let (least, rest) = parted(rest);
    let (after, rest) = parted_bytes("after ", rest)?;
    let (by, lines) = parted_bytes("by ", rest)?;
    Ok(Calls {
        call: call_of(kind)?,
        least: number_of(least)?,
        after,
        by,
        lines,
    })
}

/// The line where the call of this number fails.
fn line_of(lines: &'static str, number: usize) -> &'static str {
    let mut told = None;
    let mut left = number;
    for line in lines.split(", ") {
        if left > 0 {
            told = Some(line);
            left -= 1;
        }
    }
    told.unwrap_or("")
}

/// How many bytes were written when the call failed, or `None` where none failed.
fn written_at_fault(
    alloc: Global,
    ended: &Ended,
    line: &'static str,
    progress: Progress,
) -> Result<Option<usize>, Stop> {
    match (ended.status, progress) {
        (_, Progress::Neither) => Err(Stop::Found(Found::of("outputs that are no prefix", ""))),
        (0, Progress::Whole(_)) => Ok(None),
        (3, Progress::Part(count)) if is_line(ended.err.sent(), line) => Ok(Some(count)),
        (3, Progress::Part(_)) => Err(other_line(alloc, ended.err.sent())),
        (0, Progress::Part(count)) | (3, Progress::Whole(count)) => {
            Err(Stop::Found(Found::number(
                "so many bytes in the end, or where a call failed",
                count,
            )))
        }
        (status, _) => Err(Stop::Found(Found::status(status))),
    }
}

/// Whether one of the outputs is there.
fn is_any_there(folder: &MemFolder, row: &'static str) -> bool {
    for line in row.lines() {
        if let Some(file) = line.strip_prefix("> ") {
            if folder.get(parted(file).0).is_some() {
                return true;
            }
        }
    }
    false
}

/// A write that fails leaves the output that was created for it.
fn expect_created(folder: &MemFolder, row: &'static str, failing: &Failing) -> Result<(), Stop> {
    if failing.call == Some(Call::Write) && !is_any_there(folder, row) {
        return Err(Stop::Found(Found::of("no output", "")));
    }
    Ok(())
}

/// Compares what the command left and how it ended. Returns how many bytes were written when the call failed, or
/// `None` where none failed.
fn compare_failed(
    alloc: Global,
    folder: &MemFolder,
    names: &[Named],
    row: &'static str,
    failing: &Failing,
    ended: &Ended,
) -> Result<Option<usize>, Stop> {
    compare_kept(alloc, folder, names, row, &[])?;
    if wants_memory(ended) {
        return Err(Stop::Memory);
    }
    expect_created(folder, row, failing)?;
    compare_outputs(folder, row, "> ")?;
    let progress = progress_of(alloc, folder, names, row, ended.out.sent(), failing.text)?;
    written_at_fault(alloc, ended, failing.line, progress)
}

fn run_over<P: Program>(
    alloc: Global,
    folder: &mut MemFolder,
    names: &[Named],
    row: &'static str,
    failing: &Failing,
) -> Result<Option<usize>, Stop> {
    prepare(alloc, folder, names, row)?;
    let sending = fail_call(folder, failing.call, failing.number as u64)?;
    let words = last_said(row, "$").unwrap_or("");
    let ended = run_failing::<P, MemFolder>(alloc, folder, words, sending, None)?;
    compare_failed(alloc, folder, names, row, failing, &ended)
}

/// How many bytes were written when the call failed,
/// or `None` where there is no call of its number.
fn run_once<P: Program>(
    alloc: Global,
    names: &[Named],
    row: &'static str,
    failing: &Failing,
) -> Result<Option<usize>, Stop> {
    let mut folder = MemFolder::new(alloc);
    run_over::<P>(alloc, &mut folder, names, row, failing)
}

/// Expects that enough calls were made: there is no call of this number, and `written` bytes were
/// written when the last one failed.
fn expect_enough(calls: &Calls, number: usize, written: usize) -> Result<(), Stop> {
    if number <= calls.least || written < calls.after {
        return Err(Stop::Found(Found::number("no more calls, or no more bytes", written)));
    }
    Ok(())
}

/// Expects that enough bytes were written: the call
/// of this number failed when `written` bytes were.
fn expect_far(calls: &Calls, number: usize, written: usize) -> Result<usize, Stop> {
    if written < number.saturating_sub(1).saturating_mul(calls.by) {
        return Err(Stop::Found(Found::number("no more calls, or no more bytes", written)));
    }
    Ok(written)
}

/// Makes the calls of one kind fail, one in each run.
fn run_calls<P: Program>(
    alloc: Global,
    names: &[Named],
    row: &'static str,
    line: &'static str,
    text: &[u8],
) -> Result<(), Stop> {
    let calls = calls_of(line)?;
    let mut written = 0;
    for number in 1..MOST {
        let failing = Failing {
            call: calls.call,
            number,
            line: line_of(calls.lines, number),
            text,
        };
        match run_once::<P>(alloc, names, row, &failing) {
            Ok(Some(count)) => written = expect_far(&calls, number, count)?,
            Ok(None) => return expect_enough(&calls, number, written),
            Err(Stop::Found(found)) => return Err(Stop::Turn(line, number, found)),
            Err(stop) => return Err(stop),
        }
    }
    Err(Stop::Found(Found::of("too many calls", "")))
}

/// Expects that the row has one command, and no line that isn't looked at where a call fails.
fn expect_calls_alone(row: &'static str) -> Result<(), Stop> {
    for front in ["fail ", "! ", "~ ", "- "] {
        if said(row, front).is_some() {
            return Err(Stop::Found(Found::word(row)));
        }
    }
    if said(row, "$") != last_said(row, "$") {
        return Err(Stop::Found(Found::word(row)));
    }
    Ok(())
}

/// Runs the command of the row with each call of its kinds
/// failing in order. `text` is sent where none fails.
pub(crate) fn run_turns<P: Program>(
    alloc: Global,
    names: &[Named],
    row: &'static str,
    text: &[u8],
) -> Result<(), Stop> {
    for said in row.lines() {
        if let Some(line) = said.strip_prefix("each ") {
            expect_calls_alone(row)?;
            run_calls::<P>(alloc, names, row, line, text)?;
        }
    }
    Ok(())
}
