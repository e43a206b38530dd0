//! How the command of a row ended.

use crate::differences::{Found, difference_of_sent, wants_memory};
use crate::files::{compare_before, compare_folder};
use crate::lines::{last_said, parted, said};
use crate::running::Ended;
use crate::stop::{Stop, none_of};
use outside::MemFolder;
use std::alloc::{AllocError, Global};
use test_files::texts::{Named, number_of};

/// Whether this line was sent, or nothing where it is empty.
pub fn is_line(sent: &[u8], line: &str) -> bool {
    match sent.split_last() {
        Some((end, front)) => !line.is_empty() && *end == b'\n' && front == line.as_bytes(),
        None => line.is_empty(),
    }
}

/// What was sent instead of a line.
pub fn other_line(alloc: Global, sent: &[u8]) -> Stop {
    match String::from_utf8_lossy(alloc, sent) {
        Ok(found) => Stop::Found(Found::sent("this line", found)),
        Err(_) => Stop::Memory,
    }
}

/// Compares the status and the line of the last command with what the row says.
fn compare_status(alloc: Global, row: &'static str, ended: &Ended) -> Result<(), Stop> {
    let (status, line) = parted(said(row, "! ").unwrap_or("0"));
    if !is_line(ended.err.sent(), line) {
        return Err(other_line(alloc, ended.err.sent()));
    }
    if usize::from(ended.status) != number_of(status)? {
        return Err(Stop::Found(Found::status(ended.status)));
    }
    Ok(())
}

/// The text that the row says.
fn text_of(alloc: Global, row: &'static str) -> Result<String, AllocError> {
    let mut text = String::new(alloc);
    for line in row.lines() {
        if let Some(line) = line.strip_prefix("| ") {
            text.push_str(line)?;
            text.push('\n')?;
        }
    }
    Ok(text)
}

fn compare_text(alloc: Global, row: &'static str, ended: &Ended) -> Result<(), Stop> {
    let text = text_of(alloc, row)?;
    none_of(difference_of_sent(alloc, ended.out.sent(), &text)?)
}

/// Running out of memory is reported before an output is created: where there is one command, it leaves the files
/// of the row.
fn compare_want(
    alloc: Global,
    folder: &MemFolder,
    names: &[Named],
    row: &'static str,
) -> Result<(), Stop> {
    if said(row, "$") == last_said(row, "$") {
        compare_before(alloc, folder, names, row)?;
    }
    Err(Stop::Memory)
}

/// Compares how the last command ended, what it wrote, and the folder that it left with what the row says. `Found` with the first
/// difference; `Memory` where the command reported that it ran out of memory.
pub fn compare_ended(
    alloc: Global,
    folder: &MemFolder,
    names: &[Named],
    row: &'static str,
    ended: &Ended,
) -> Result<(), Stop> {
    if wants_memory(ended) {
        return compare_want(alloc, folder, names, row);
    }
    compare_status(alloc, row, ended)?;
    compare_text(alloc, row, ended)?;
    compare_folder(alloc, folder, names, row)
}
