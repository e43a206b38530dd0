//! A buffer before a sink.

use outside::{Failed, MemSink, SendBuffer};
use std::alloc::{AllocError, Global};
use std::process::Abort;
use std::test::Fail;

static LETTERS: [u8; 70_000] = [b'x'; 70_000];

// Asserts that `sent` bytes in all were sent once these are pushed.
fn expect_pushed(
    rt: &impl Abort,
    buffer: &mut SendBuffer,
    sink: &mut MemSink,
    piece: &[u8],
    sent: usize,
) {
    let is_pushed = buffer.push(sink, piece).is_ok();
    assert!(rt;
        is_pushed && sink.sent().len() == sent,
        "{} bytes",
        piece.len()
    );
}

// Asserts the same once what waits is sent too, or should have been.
fn expect_finished(
    rt: &impl Abort,
    buffer: &mut SendBuffer,
    sink: &mut MemSink,
    answer: Result<(), Failed>,
    sent: usize,
) {
    let is_so = buffer.finish(sink) == answer;
    assert!(rt; is_so && sink.sent().len() == sent);
}

fn are_around(front: &[u8], end: &[u8], bytes: &[u8]) -> bool {
    bytes.starts_with(front) && bytes.ends_with(end)
}

fn expect_pieces(rt: &impl Abort, alloc: Global, sink: &mut MemSink) -> Result<(), AllocError> {
    sink.reserve(200_000)?;
    let mut buffer = SendBuffer::new(alloc)?;
    expect_pushed(rt, &mut buffer, sink, b"begin ", 0);
    expect_pushed(rt, &mut buffer, sink, &LETTERS[..65_530], 0);
    expect_pushed(rt, &mut buffer, sink, b" end", 65_536);
    expect_pushed(rt, &mut buffer, sink, &LETTERS, 135_540);
    expect_pushed(rt, &mut buffer, sink, b".", 135_540);
    expect_finished(rt, &mut buffer, sink, Ok(()), 135_541);
    Ok(())
}

// Bytes that fit wait. Other bytes are added once what waited was
// sent, or are sent too where they are more than the buffer holds.
#[test]
fn pieces_wait_and_are_sent(rt: HostRuntime) -> Result<(), Fail> {
    let mut sink = MemSink::new(rt.alloc());
    expect_pieces(&rt, rt.alloc(), &mut sink)?;
    assert!(rt; are_around(b"begin x", b"x.", sink.sent()));
    Ok(())
}

fn expect_failed(rt: &impl Abort, alloc: Global, sink: &mut MemSink) -> Result<(), AllocError> {
    sink.reserve(200_000)?;
    sink.fail(2)?;
    let mut buffer = SendBuffer::new(alloc)?;
    expect_pushed(rt, &mut buffer, sink, &LETTERS[..40_000], 0);
    expect_pushed(rt, &mut buffer, sink, &LETTERS[..40_000], 40_000);
    expect_finished(rt, &mut buffer, sink, Err(Failed), 40_000);
    Ok(())
}

// The second write fails: what waited before it was sent, and nothing else.
#[test]
fn a_write_behind_the_buffer_fails(rt: HostRuntime) -> Result<(), Fail> {
    let mut sink = MemSink::new(rt.alloc());
    expect_failed(&rt, rt.alloc(), &mut sink)?;
    Ok(())
}
