//! What no clause says: that calls succeed.
//!
//! A test owns its folder and ends in one place, and what it asserts is
//! in small functions that borrow the folder: that costs the check least.
mod buffers;
mod exact;
mod kept;
mod sending;
mod short;
mod slow;

use outside::{Failed, MemSink, send_all};
use std::process::Abort;
use std::test::Fail;

/// Bytes that are sent, what is returned, and what the sink has then.
struct Sent {
    bytes: &'static [u8],
    answer: Result<(), Failed>,
    sent: &'static [u8],
}

// The second write is on the list of those that fail, and three more bytes are past the room.
static SENDINGS: [Sent; 4] = [
    Sent {
        bytes: b"ab",
        answer: Ok(()),
        sent: b"ab",
    },
    Sent {
        bytes: b"c",
        answer: Err(Failed),
        sent: b"ab",
    },
    Sent {
        bytes: b"cde",
        answer: Err(Failed),
        sent: b"ab",
    },
    Sent {
        bytes: b"cd",
        answer: Ok(()),
        sent: b"abcd",
    },
];

fn has_sent(sink: &MemSink, bytes: &[u8]) -> bool {
    sink.sent() == bytes
}

fn is_sent(sink: &mut MemSink, sent: &Sent) -> bool {
    send_all(sink, sent.bytes) == sent.answer && has_sent(sink, sent.sent)
}

fn expect_sendings(rt: &impl Abort, sink: &mut MemSink) -> Result<(), Fail> {
    sink.reserve(4)?;
    sink.fail(2)?;
    for (number, sent) in SENDINGS.iter().enumerate() {
        assert!(rt; is_sent(sink, sent), "write {number}");
    }
    Ok(())
}

#[test]
fn sink_in_memory(rt: HostRuntime) -> Result<(), Fail> {
    let mut sink = MemSink::new(rt.alloc());
    expect_sendings(&rt, &mut sink)
}
