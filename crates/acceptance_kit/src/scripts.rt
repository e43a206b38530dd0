//! Whole commands in a text, and one runner for all of them. A text costs a check less than a table of values.
//!
//! A blank line separates two rows. The prefix of a line says what it is:
//!
//! ```text
//! # what is tried
//! < a FIRST SECOND        a file that is there before: its name, and words of `test_files::texts`
//! to o p                  names that a command may write; without this line, `o` alone
//! room 416                the room for each of them in bytes; without this line, 200,000
//! fail Read 2             a call that is to fail: its kind, `Send` for a write to standard output, and its number, counted from 1
//! $ gain -g 1 a o         a command; all but the last have to succeed
//! ! 1 a: no frame at 0    the status of the last command, and its line on standard error; without this line, 0 and none
//! | 1 frames              a line of its text on standard output, or three dots for any lines; without this line, no text
//! > o FIRST_LOUDER        a file that is there after it
//! ~ o FIRST               a file that must have changed from these bytes
//! - x                     another name that must be absent
//! each Read 2 a: ..       calls that fail too, each in another run, as `turns` says
//! tell 15                 how many writes to standard error fail too, each in another run; the last of them is never made
//! ```
//!
//! A file that was there and isn't named by `>` or `~` has to stay, and a name of an output that no line of a file names has to be
//! absent. A line `NAME = words` defines bytes for the lines after it, up to the end of the text.

use crate::tells::run_tells;
use crate::turns::run_turns;
use command_runs::before::{fail_calls, prepare};
use command_runs::differences::{Found, other_end};
use command_runs::ended::compare_ended;
use command_runs::lines::{last_said, said};
use command_runs::running::{Ended, Program, run_failing};
use command_runs::stop::{Stop, none_of};
use outside::MemFolder;
use std::alloc::{AllocError, AllocFailed, Global};
use test_files::named::FILES;
use test_files::texts::{Named, define};

/// How the lines of a row begin. All others define bytes.
static FRONTS: [&str; 13] = [
    "# ", "< ", "to ", "room ", "fail ", "$", "! ", "| ", "> ", "~ ", "- ", "each ", "tell ",
];

/// The first row that didn't end as it says, and how it ended.
#[derive(Debug, PartialEq, Eq, Drop)]
pub struct Unlike {
    /// The first row of its text.
    pub text: &'static str,
    pub row: &'static str,
    /// For a row whose calls fail one by one: the line of these calls and the number of the one that
    /// failed; otherwise empty and 0.
    pub calls: &'static str,
    pub number: usize,
    pub found: Found,
}

fn run_done<P: Program>(
    alloc: Global,
    folder: &mut MemFolder,
    words: &'static str,
) -> Result<(), Stop> {
    none_of(other_end::<P, MemFolder>(alloc, folder, words, 0, "")?)
}

/// Runs the commands except the last.
fn run_front<P: Program>(
    alloc: Global,
    folder: &mut MemFolder,
    row: &'static str,
) -> Result<(), Stop> {
    let mut waiting = None;
    for line in row.lines() {
        if let Some(words) = line.strip_prefix("$") {
            if let Some(before) = waiting {
                run_done::<P>(alloc, folder, before)?;
            }
            waiting = Some(words);
        }
    }
    Ok(())
}

fn run_last<P: Program>(
    alloc: Global,
    folder: &mut MemFolder,
    names: &[Named],
    row: &'static str,
    sending: Option<u64>,
) -> Result<Ended, Stop> {
    let words = last_said(row, "$").unwrap_or("");
    let ended = run_failing::<P, MemFolder>(alloc, folder, words, sending, None)?;
    compare_ended(alloc, folder, names, row, &ended)?;
    Ok(ended)
}

/// A row without a command may have only definitions.
fn expect_definitions(row: &'static str) -> Result<(), Stop> {
    if said(row, "< ").is_some() || said(row, "> ").is_some() || said(row, "! ").is_some() {
        return Err(Stop::Found(Found::word(row)));
    }
    Ok(())
}

fn run_over<P: Program>(
    alloc: Global,
    folder: &mut MemFolder,
    names: &[Named],
    row: &'static str,
) -> Result<Ended, Stop> {
    prepare(alloc, folder, names, row)?;
    let sending = fail_calls(folder, row)?;
    run_front::<P>(alloc, folder, row)?;
    run_last::<P>(alloc, folder, names, row, sending)
}

/// Runs a row over an empty folder.
fn run_once<P: Program>(alloc: Global, names: &[Named], row: &'static str) -> Result<Ended, Stop> {
    let mut folder = MemFolder::new(alloc);
    run_over::<P>(alloc, &mut folder, names, row)
}

/// Runs a row, and then again with each call failing that the row names.
fn run_row<P: Program>(alloc: Global, names: &[Named], row: &'static str) -> Result<(), Stop> {
    if said(row, "$").is_none() {
        return expect_definitions(row);
    }
    let ended = run_once::<P>(alloc, names, row)?;
    run_turns::<P>(alloc, names, row, ended.out.sent())?;
    run_tells::<P>(alloc, names, row)
}

/// Whether the line is empty or has one of the prefixes.
fn is_known(line: &str) -> bool {
    for front in &FRONTS {
        if line.starts_with(*front) {
            return true;
        }
    }
    line.is_empty()
}

/// Reads a line that defines bytes. A line that defines
/// nothing is a fault, so that no line is passed over.
fn read_line(alloc: Global, names: &mut Vec<Named>, line: &'static str) -> Result<(), Stop> {
    if is_known(line) {
        return Ok(());
    }
    Ok(define(alloc, names, line)?)
}

/// Reads the lines that define bytes.
fn define_all(alloc: Global, names: &mut Vec<Named>, row: &'static str) -> Result<(), Stop> {
    for line in row.lines() {
        read_line(alloc, names, line)?;
    }
    Ok(())
}

fn define_and_run<P: Program>(
    alloc: Global,
    names: &mut Vec<Named>,
    row: &'static str,
) -> Result<(), Stop> {
    define_all(alloc, names, row)?;
    run_row::<P>(alloc, names, row)
}

/// Why a run over texts stopped.
#[derive(Drop)]
enum End {
    Memory,
    Unlike(Unlike),
}

/// The first row of a text, which says what the text is about.
fn first_row(text: &'static str) -> &'static str {
    match text.split_once("\n\n") {
        Some((row, _)) => row,
        None => text,
    }
}

fn end_of(text: &'static str, row: &'static str, stop: Stop) -> End {
    let (calls, number, found) = match stop {
        Stop::Memory => return End::Memory,
        Stop::Found(found) => ("", 0, found),
        Stop::Turn(calls, number, found) => (calls, number, found),
    };
    End::Unlike(Unlike {
        text,
        row,
        calls,
        number,
        found,
    })
}

fn run_rows<P: Program>(
    alloc: Global,
    names: &mut Vec<Named>,
    text: &'static str,
) -> Result<(), End> {
    for row in text.split("\n\n") {
        if let Err(stop) = define_and_run::<P>(alloc, names, row) {
            return Err(end_of(first_row(text), row, stop));
        }
    }
    Ok(())
}

/// Runs the rows of a text. What the text defines holds up to its end.
fn run_text<P: Program>(
    alloc: Global,
    names: &mut Vec<Named>,
    text: &'static str,
) -> Result<(), End> {
    let known = names.len();
    run_rows::<P>(alloc, names, text)?;
    names.truncate(known);
    Ok(())
}

fn run_texts<P: Program>(
    alloc: Global,
    names: &mut Vec<Named>,
    shared: &[&'static str],
    texts: &[&'static str],
) -> Result<(), End> {
    run_rows::<P>(alloc, names, FILES)?;
    for text in shared {
        run_rows::<P>(alloc, names, text)?;
    }
    for text in texts {
        run_text::<P>(alloc, names, text)?;
    }
    Ok(())
}

/// Runs the rows of the texts, each over its own folder, up to the first that doesn't end as it says. Returns `None` where all
/// end so. What `FILES` and `shared` define holds in all texts.
///
/// # Errors
/// Where memory ran out: for the folders and what is compared, or for a command that reported it and left
/// its files.
pub fn first_unlike<P: Program>(
    alloc: Global,
    shared: &[&'static str],
    texts: &[&'static str],
) -> Result<Option<Unlike>, AllocError> {
    let mut names = Vec::new(alloc);
    match run_texts::<P>(alloc, &mut names, shared, texts) {
        Ok(()) => Ok(None),
        Err(End::Memory) => Err(AllocError),
        Err(End::Unlike(unlike)) => Ok(Some(unlike)),
    }
}
