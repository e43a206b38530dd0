//! Rows whose writes to standard error fail: the first, the second and so on, each in its own run.
//!
//! The status stays the same, and a prefix of the line is sent: nothing where the first write fails, and all of it where no write
//! of the number is made.

use command_runs::before::prepare;
use command_runs::differences::{Found, wants_memory};
use command_runs::ended::{is_line, other_line};
use command_runs::lines::{last_said, parted, said};
use command_runs::running::{Ended, Program, run_failing};
use command_runs::stop::Stop;
use outside::MemFolder;
use std::alloc::Global;
use test_files::texts::{Named, number_of};

/// Whether this is what was sent of a line, where write `number` of the `tried` writes fails.
fn is_sent(sent: &[u8], line: &'static str, number: usize, tried: usize) -> bool {
    if number <= 1 {
        return sent.is_empty();
    }
    is_line(sent, line) || number < tried && line.as_bytes().starts_with(sent)
}

fn compare_told(
    alloc: Global,
    row: &'static str,
    ended: &Ended,
    number: usize,
    tried: usize,
) -> Result<(), Stop> {
    if wants_memory(ended) {
        return Err(Stop::Memory);
    }
    let (status, line) = parted(said(row, "! ").unwrap_or("0"));
    if !is_sent(ended.err.sent(), line, number, tried) {
        return Err(other_line(alloc, ended.err.sent()));
    }
    if usize::from(ended.status) != number_of(status)? {
        return Err(Stop::Found(Found::status(ended.status)));
    }
    Ok(())
}

fn run_over<P: Program>(
    alloc: Global,
    folder: &mut MemFolder,
    names: &[Named],
    row: &'static str,
    number: usize,
    tried: usize,
) -> Result<(), Stop> {
    prepare(alloc, folder, names, row)?;
    let words = last_said(row, "$").unwrap_or("");
    let ended = run_failing::<P, MemFolder>(alloc, folder, words, None, Some(number as u64))?;
    compare_told(alloc, row, &ended, number, tried)
}

fn run_once<P: Program>(
    alloc: Global,
    names: &[Named],
    row: &'static str,
    number: usize,
    tried: usize,
) -> Result<(), Stop> {
    let mut folder = MemFolder::new(alloc);
    run_over::<P>(alloc, &mut folder, names, row, number, tried)
}

/// Runs the command of the row with each write to standard
/// error failing in order, where the row says so.
pub(crate) fn run_tells<P: Program>(
    alloc: Global,
    names: &[Named],
    row: &'static str,
) -> Result<(), Stop> {
    let Some(tried) = said(row, "tell ") else {
        return Ok(());
    };
    for number in 1..number_of(tried)?.saturating_add(1) {
        match run_once::<P>(alloc, names, row, number, number_of(tried)?) {
            Ok(()) => (),
            Err(Stop::Found(found)) => return Err(Stop::Turn("tell", number, found)),
            Err(stop) => return Err(stop),
        }
    }
    Ok(())
}
