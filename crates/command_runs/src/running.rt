//! Commands in words, over a folder and sinks in memory.

use outside::{Folder, MemFolder, MemSink};
use std::alloc::{AllocError, Global};

/// More than any line of these tests takes.
const TEXT_ROOM: u64 = 100;

/// More than any listing of these tests takes.
const LISTING_ROOM: u64 = 16_000_000;

/// A program whose commands are run. What it promises isn't known here, so that the check doesn't read all its crates.
pub trait Program {
    /// Does what the words ask for, and returns the status.
    fn run<D: Folder>(
        alloc: Global,
        words: &[String],
        folder: &mut D,
        out: &mut MemSink,
        err: &mut MemSink,
    ) -> u8;
}

/// How a command ended: its status, and what it wrote.
#[derive(Drop)]
pub struct Ended {
    pub status: u8,
    pub out: MemSink,
    pub err: MemSink,
}

/// Puts a file into the folder. It has no clauses, so that a call leaves no facts, which cost the check.
pub fn put(folder: &mut MemFolder, name: &str, bytes: &[u8]) -> Result<(), AllocError> {
    folder.put(name, bytes)
}

/// Makes room for a file, without clauses too.
pub fn reserve(folder: &mut MemFolder, name: &str, room: u64) -> Result<(), AllocError> {
    folder.reserve(name, room)
}

fn make_room(sink: &mut MemSink, room: u64, failing: Option<u64>) -> Result<(), AllocError> {
    sink.reserve(room)?;
    match failing {
        Some(number) => sink.fail(number),
        None => Ok(()),
    }
}

/// A sink with `room` bytes of room. The write of this number is to fail.
fn sink_of(alloc: Global, room: u64, failing: Option<u64>) -> Result<MemSink, AllocError> {
    let mut sink = MemSink::new(alloc);
    make_room(&mut sink, room, failing)?;
    Ok(sink)
}

/// The words of a text, separated by blanks.
fn words_of(alloc: Global, text: &str) -> Result<Vec<String>, AllocError> {
    text.split_ascii_whitespace()
        .map(|word| String::from_str(alloc, word))
        .try_collect(alloc)
}

/// Runs the words with these sinks as standard output and standard error. It is a function of its own, since owned values
/// cost the check at each `?` that may drop them.
fn ended_of<P: Program, D: Folder>(
    alloc: Global,
    words: &[String],
    folder: &mut D,
    mut out: MemSink,
    mut err: MemSink,
) -> Ended {
    let status = P::run(alloc, words, folder, &mut out, &mut err);
    Ended { status, out, err }
}

/// Runs the words, separated by blanks, with these sinks.
fn run_to<P: Program, D: Folder>(
    alloc: Global,
    folder: &mut D,
    words: &str,
    out: MemSink,
    err: MemSink,
) -> Result<Ended, AllocError> {
    let words = words_of(alloc, words)?;
    Ok(ended_of::<P, D>(alloc, &words, folder, out, err))
}

/// Runs the words, separated by blanks, with sinks that have enough room. The writes of these numbers to standard output and to
/// standard error are to fail.
pub fn run_failing<P: Program, D: Folder>(
    alloc: Global,
    folder: &mut D,
    words: &str,
    sending: Option<u64>,
    telling: Option<u64>,
) -> Result<Ended, AllocError> {
    let out = sink_of(alloc, LISTING_ROOM, sending)?;
    let err = sink_of(alloc, TEXT_ROOM, telling)?;
    run_to::<P, D>(alloc, folder, words, out, err)
}

/// Runs the words, separated by blanks, with sinks that have enough room.
pub fn run_with_room<P: Program, D: Folder>(
    alloc: Global,
    folder: &mut D,
    words: &str,
) -> Result<Ended, AllocError> {
    run_failing::<P, D>(alloc, folder, words, None, None)
}
