//! What a command left and sent, compared with what it should have.

use crate::running::{Ended, Program, run_with_room};
use outside::Folder;
use std::alloc::{AllocError, Global};

/// What was found instead of what was expected. One struct
/// for all kinds costs the check less than an enum of them.
#[derive(Debug, PartialEq, Eq, Drop)]
pub struct Found {
    pub what: &'static str,
    /// The file, the word or the row that it is about, where there is one.
    pub name: &'static str,
    /// A status, or numbers of bytes: the number written, or for a file the number that it has, the number expected, and the number
    /// before the first that differs.
    pub numbers: [usize; 3],
    /// What was sent.
    pub sent: Option<String>,
}

impl Found {
    fn new(
        what: &'static str,
        name: &'static str,
        numbers: [usize; 3],
        sent: Option<String>,
    ) -> Found {
        Found {
            what,
            name,
            numbers,
            sent,
        }
    }

    pub fn of(what: &'static str, name: &'static str) -> Found {
        Found::new(what, name, [0, 0, 0], None)
    }

    pub fn number(what: &'static str, number: usize) -> Found {
        Found::new(what, "", [number, 0, 0], None)
    }

    pub fn status(status: u8) -> Found {
        Found::number("this status", usize::from(status))
    }

    pub fn word(word: &'static str) -> Found {
        Found::of("a word that stands for nothing", word)
    }

    pub fn sent(what: &'static str, sent: String) -> Found {
        Found::new(what, "", [0, 0, 0], Some(sent))
    }
}

/// The first place where the bytes differ, or the length of the shorter.
fn place_of_difference(found: &[u8], wanted: &[u8]) -> usize {
    found.iter().zip(wanted).take_while(|(a, b)| a == b).count()
}

/// How what was found in a file differs from these bytes.
pub fn bytes_differ(name: &'static str, found: &[u8], wanted: &[u8]) -> Option<Found> {
    if found == wanted {
        return None;
    }
    let place = place_of_difference(found, wanted);
    let numbers = [found.len(), wanted.len(), place];
    Some(Found::new("other bytes", name, numbers, None))
}

/// Whether this text was sent, where three dots in it stand for any bytes.
fn is_text(sent: &[u8], text: &str) -> bool {
    match text.split_once("...") {
        Some((front, end)) => {
            front.len().saturating_add(end.len()) <= sent.len()
                && sent.starts_with(front.as_bytes())
                && sent.ends_with(end.as_bytes())
        }
        None => sent == text.as_bytes(),
    }
}

/// How what was sent differs from this text.
pub fn difference_of_sent(
    alloc: Global,
    sent: &[u8],
    text: &str,
) -> Result<Option<Found>, AllocError> {
    if is_text(sent, text) {
        return Ok(None);
    }
    let found = String::from_utf8_lossy(alloc, sent)?;
    Ok(Some(Found::sent("this text", found)))
}

/// Whether the command ended because memory ran out.
pub fn wants_memory(ended: &Ended) -> bool {
    ended.status == 4 && ended.err.sent() == b"out of memory\n".as_slice()
}

/// The first difference between how a command ended and this status and line, without text.
fn difference_of_end(
    alloc: Global,
    ended: &Ended,
    status: u8,
    line: &'static str,
) -> Result<Option<Found>, AllocError> {
    if wants_memory(ended) {
        return Err(AllocError);
    }
    if ended.err.sent() != line.as_bytes() {
        let found = String::from_utf8_lossy(alloc, ended.err.sent())?;
        return Ok(Some(Found::sent("this line", found)));
    }
    if ended.status != status {
        return Ok(Some(Found::status(ended.status)));
    }
    difference_of_sent(alloc, ended.out.sent(), "")
}

/// Runs the words, and returns the first difference from this status and line, without text.
///
/// # Errors
/// Where memory ran out, here or in the command.
pub fn other_end<P: Program, D: Folder>(
    alloc: Global,
    folder: &mut D,
    words: &str,
    status: u8,
    line: &'static str,
) -> Result<Option<Found>, AllocError> {
    let ended = run_with_room::<P, D>(alloc, folder, words)?;
    difference_of_end(alloc, &ended, status, line)
}
