//! Bytes of a file that was found with a length, over a folder that gives at most 7 bytes at a time. The file has 100.

use super::slow::{Slow, stand_at};
use outside::{ReadFault, read_exact};
use std::process::Abort;
use std::test::Fail;

/// A reading of 20 bytes from `at` on, of a file that was found with `found` bytes, what it returns, and how many reads there
/// were by then.
struct Reading {
    found: u64,
    at: u64,
    answer: Result<(), ReadFault>,
    reads: u64,
}

/// The second reading begins where 10 bytes are left,
/// and the second read of the third reading fails.
static READINGS: [Reading; 3] = [
    Reading {
        found: 100,
        at: 80,
        answer: Ok(()),
        reads: 3,
    },
    Reading {
        found: 110,
        at: 90,
        answer: Err(ReadFault::Shrunk(110, 100)),
        reads: 6,
    },
    Reading {
        found: 100,
        at: 0,
        answer: Err(ReadFault::Failed),
        reads: 8,
    },
];

/// Whether this was returned after the wanted number
/// of reads, with the right bytes where there are any.
fn is_read(answer: &Result<(), ReadFault>, reads: u64, bytes: &[u8], reading: &Reading) -> bool {
    *answer == reading.answer
        && reads == reading.reads
        && (answer.is_err() || stand_at(bytes, reading.at))
}

fn expect(rt: &impl Abort, folder: &mut Slow, reading: &Reading) {
    let Reading { found, at, .. } = *reading;
    assert!(rt; found <= 1000 && at <= 1000 && at + 20 <= found);
    let mut bytes = [0; 20];
    let answer = read_exact(folder, "a", found, at, &mut bytes);
    let is_so = is_read(&answer, folder.calls.made, &bytes, reading);
    assert!(rt; is_so, "from {at} on");
}

fn expect_each(rt: &impl Abort, folder: &mut Slow) {
    for reading in &READINGS {
        expect(rt, folder, reading);
    }
}

#[test]
fn all_bytes_or_none(rt: HostRuntime) -> Result<(), Fail> {
    let mut folder = Slow::new(rt.alloc(), 100, 7, 8)?;
    expect_each(&rt, &mut folder);
    Ok(())
}
