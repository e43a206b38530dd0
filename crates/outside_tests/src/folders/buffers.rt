//! How often the buffers read and write, over a folder that gives and takes few bytes at a time.
ghost use Rattle.outside.specs.Files.{untold_files};
ghost use Rattle.outside.specs.Feed.{IsFedFrom};

use super::slow::{Slow, pattern, stand_at};
use outside::{Failed, Feed, WriteBuffer};
use std::alloc::Global;
use std::process::Abort;
use std::test::Fail;

// What a `fill` asks for, what it returns, and how many reads there were by then.
struct Case {
    at: u64,
    n: usize,
    answer: Result<usize, Failed>,
    reads: u64,
}

// Rows of cases.
macro_rules! cases {
    ($($n:literal at $at:literal: $answer:expr, $reads:literal reads;)+) => {
        [$(Case { at: $at, n: $n, answer: $answer, reads: $reads }),+]
    };
}

// Whether the wanted number of the file's bytes are there, or none where a read failed.
fn are_given(bytes: &[u8], case: &Case) -> bool {
    bytes.len() == case.answer.unwrap_or(0) && stand_at(bytes, case.at)
}

// Whether a call of `fill` returned what is wanted, with the wanted bytes there and the wanted
// number of reads made by then.
fn is_filled(filled: Result<usize, Failed>, bytes: &[u8], reads: u64, case: &Case) -> bool {
    filled == case.answer && are_given(bytes, case) && reads == case.reads
}

fn expect(rt: &impl Abort, feed: &mut Feed, folder: &mut Slow, name: &str, case: &Case)
    requires fed { IsFedFrom feed.old untold_files name.now }
    ensures fed { IsFedFrom feed.new untold_files name.now }
{
    assert!(rt; case.n <= 4096 && case.at <= 1_000_000);
    let filled = feed.fill(folder, name, case.at, case.n);
    let is_so = is_filled(filled, feed.bytes(), folder.calls.made, case);
    assert!(rt; is_so, "{} bytes at {}", case.n, case.at);
}

fn expect_each(rt: &impl Abort, feed: &mut Feed, folder: &mut Slow, name: &str, cases: &[Case])
    requires fed { IsFedFrom feed.old untold_files name.now }
    ensures fed { IsFedFrom feed.new untold_files name.now }
{
    for case in cases {
        expect(rt, feed, folder, name, case);
    }
}

fn expect_none(rt: &impl Abort, feed: &Feed) {
    assert!(rt; feed.bytes().is_empty());
}

// Expects that a new feed has no bytes, and none once it is cleared.
fn expect_fed(
    rt: &impl Abort,
    alloc: Global,
    folder: &mut Slow,
    cases: &[Case],
    cleared: &[Case],
) -> Result<(), Fail> {
    let mut feed = Feed::new(alloc)?;
    expect_none(rt, &feed);
    expect_each(rt, &mut feed, folder, "a", cases);
    feed.clear();
    expect_none(rt, &feed);
    expect_each(rt, &mut feed, folder, "a", cleared);
    Ok(())
}

// The file has 70,000 bytes, a read gives at most 1,000, and the eleventh fails: the first buffer, and pieces at its end; one byte
// further back, and the end of the file, where 10 bytes are left.
static BY_SHORT_READS: [Case; 8] = cases! {
    4096 at 0: Ok(4096), 5 reads;
    10 at 4990: Ok(10), 5 reads;
    11 at 4990: Ok(11), 6 reads;
    1 at 4989: Ok(1), 7 reads;
    20 at 69_990: Ok(10), 9 reads;
    10 at 69_990: Ok(10), 9 reads;
    1500 at 0: Err(Failed), 11 reads;
    1 at 70_001: Ok(0), 12 reads;
};

#[test]
fn a_feed_over_short_reads(rt: HostRuntime) -> Result<(), Fail> {
    let mut folder = Slow::new(rt.alloc(), 70_000, 1000, 11)?;
    expect_fed(&rt, rt.alloc(), &mut folder, &BY_SHORT_READS, &[])
}

// Reads of the length that is asked for: one for the
// first 65,536 bytes, and one for the bytes after those.
static BY_LONG_READS: [Case; 4] = cases! {
    1 at 1: Ok(1), 1 reads;
    4096 at 61_441: Ok(4096), 1 reads;
    4096 at 61_442: Ok(4096), 2 reads;
    4096 at 122_882: Ok(4096), 2 reads;
};

// What was held is read again.
static CLEARED: [Case; 2] = cases! {
    0 at 122_882: Ok(0), 2 reads;
    1 at 122_882: Ok(1), 3 reads;
};

#[test]
fn a_feed_over_long_reads(rt: HostRuntime) -> Result<(), Fail> {
    let mut folder = Slow::new(rt.alloc(), 200_000, 200_000, 0)?;
    expect_fed(&rt, rt.alloc(), &mut folder, &BY_LONG_READS, &CLEARED)
}

// Some bytes of a pattern that are pushed, and how many writes there were by then.
struct Piece {
    from: usize,
    to: usize,
    writes: u64,
}

static PIECES: [Piece; 4] = [
    Piece {
        from: 0,
        to: 65_000,
        writes: 0,
    },
    Piece {
        from: 65_000,
        to: 65_536,
        writes: 0,
    },
    Piece {
        from: 65_536,
        to: 65_537,
        writes: 2,
    },
    Piece {
        from: 65_537,
        to: 200_000,
        writes: 6,
    },
];

// Two bytes again, whose write, the eighth, fails.
static AGAIN: Piece = Piece {
    from: 0,
    to: 2,
    writes: 7,
};

fn push(
    rt: &impl Abort,
    buffer: &mut WriteBuffer,
    folder: &mut Slow,
    source: &[u8],
    piece: &Piece,
) {
    let bytes = source.get(piece.from..piece.to).unwrap_or(&[]);
    let is_pushed = buffer.push(folder, "a", bytes).is_ok();
    assert!(rt;
        is_pushed && folder.calls.made == piece.writes,
        "up to {}",
        piece.to
    );
}

// Expects that nothing waits after the end, even where that failed.
fn finish(
    rt: &impl Abort,
    buffer: &mut WriteBuffer,
    folder: &mut Slow,
    source: &[u8],
    answer: Result<(), Failed>,
) {
    let is_so = buffer.finish(folder, "a") == answer;
    assert!(rt; is_so && folder.content.as_slice() == source);
}

fn expect_written(rt: &impl Abort, buffer: &mut WriteBuffer, folder: &mut Slow, source: &[u8]) {
    for piece in &PIECES {
        push(rt, buffer, folder, source, piece);
    }
    assert!(rt; folder.content.len() == 196_608);
    finish(rt, buffer, folder, source, Ok(()));
}

fn expect_failed(rt: &impl Abort, buffer: &mut WriteBuffer, folder: &mut Slow, source: &[u8]) {
    push(rt, buffer, folder, source, &AGAIN);
    finish(rt, buffer, folder, source, Err(Failed));
    finish(rt, buffer, folder, source, Ok(()));
}

fn expect_short_writes(rt: &impl Abort, alloc: Global, folder: &mut Slow) -> Result<(), Fail> {
    let source = pattern(alloc, 200_000)?;
    let mut buffer = WriteBuffer::new(alloc)?;
    expect_written(rt, &mut buffer, folder, &source);
    expect_failed(rt, &mut buffer, folder, &source);
    Ok(())
}

#[test]
fn a_buffer_over_short_writes(rt: HostRuntime) -> Result<(), Fail> {
    let mut folder = Slow::new(rt.alloc(), 0, 40_000, 8)?;
    expect_short_writes(&rt, rt.alloc(), &mut folder)
}
