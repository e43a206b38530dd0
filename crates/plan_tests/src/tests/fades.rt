//! Sheets, and the steps that they give frames, worked out by hand.

use fade_plan::{Curve, Envelope, EnvelopeFault};
use frame_header::{Class, Version};
use std::alloc::Global;
use std::process::Abort;
use std::test::Fail;
use test_files::table;

/// What a sheet gives on a stream of 1,000 frames of MPEG-1 at 44,100 Hz.
enum Answer {
    /// The steps of frames: the frame, and its steps.
    Steps(&'static [(u32, i16)]),
    Refused(EnvelopeFault),
    /// This line doesn't rise.
    NotRising(u32),
}

struct Sheet {
    what: &'static str,
    text: &'static [u8],
    answer: Answer,
}

static SHEETS: [Sheet; 23] = table! {
    Sheet { what, text, answer }
    ("rounded toward zero, below", b"0 0\n3 -10\n",
        Answer::Steps(&[(0, 0), (1, -3), (2, -6), (3, -10), (4, -10)]))
    ("rounded toward zero, above", b"0 0\n3 +10",
        Answer::Steps(&[(0, 0), (1, 3), (2, 6), (3, 10), (4_294_967_295, 10)]))
    ("through zero: -5 / 2 and 5 / 2", b"10 -10\n14 10",
        Answer::Steps(&[(0, -10), (10, -10), (11, -5), (12, 0), (13, 5), (14, 10)]))
    ("one point is everywhere", b"7 -101", Answer::Steps(&[(0, -101), (7, -101), (8, -101)]))
    ("the steps of a point hold at its frame", b"1 255\n2 -255\n4 0",
        Answer::Steps(&[(0, 255), (1, 255), (2, -255), (3, -127), (4, 0)]))
    ("a byte order mark, comments, blanks at both ends and carriage returns",
        b"\xef\xbb\xbf# a fade\r\n\r\n \t \r\n\t0 \t007 \r\n#1\n \t#x 9\n2 001\r",
        Answer::Steps(&[(0, 7), (1, 4), (2, 1)]))
    // 60 * 44100 / 1152 is 2296.875, and 60.01 * 44100 / 1152 is 2297.26.
    ("times", b"1.00 -1\n1.00.01 -2", Answer::Steps(&[(2_295, -1), (2_296, -1), (2_297, -2)]))
    ("the end", b"990 0\nEOF -100",
        Answer::Steps(&[(990, 0), (991, -10), (999, -90), (1_000, -100), (1_001, -100)]))
    ("an empty sheet", b"", Answer::Refused(EnvelopeFault::NoPoints))
    ("comments alone", b"#\n#0 0\n\n", Answer::Refused(EnvelopeFault::NoPoints))
    ("one word", b"0 0\n\n1", Answer::Refused(EnvelopeFault::Line(3)))
    ("three words", b"0 0 # a fade", Answer::Refused(EnvelopeFault::Line(1)))
    ("no place", b"0 0\neof 0", Answer::Refused(EnvelopeFault::Line(2)))
    ("a word that is no text", b"\xff 0", Answer::Refused(EnvelopeFault::Line(1)))
    ("steps above 255", b"0 256", Answer::Refused(EnvelopeFault::Line(1)))
    ("a sign alone", b"0 -", Answer::Refused(EnvelopeFault::Line(1)))
    ("two signs", b"0 +-1", Answer::Refused(EnvelopeFault::Line(1)))
    ("four digits", b"0 0001", Answer::Refused(EnvelopeFault::Line(1)))
    ("a second byte order mark", b"\xef\xbb\xbf\xef\xbb\xbf0 0", Answer::Refused(EnvelopeFault::Line(1)))
    ("the same frame", b"1 5\n1 6", Answer::NotRising(2))
    ("a time in the frame before: a minute is in frame 2,296", b"# down\n2296 0\n1.00 0\n0 0",
        Answer::NotRising(3))
    ("the end of a short stream", b"0 0\n1000 0\n\nEOF 0", Answer::NotRising(4))
    ("a bad line behind points that don't rise", b"1 5\n1 6\n2", Answer::Refused(EnvelopeFault::Line(3)))
};

/// Whether the curve gives each of these frames its steps, and the opposite on the way back.
fn has_steps(curve: &Curve, wanted: &[(u32, i16)]) -> bool {
    wanted.iter().all(|(frame, steps)| {
        curve.steps(*frame, false) == *steps && curve.steps(*frame, true) == -*steps
    })
}

/// Whether the sheet that was read gives this.
fn is_placed(envelope: Envelope, answer: &Answer) -> bool {
    let class = Class {
        version: Version::One,
        frequency_index: 0,
        channels: 2,
    };
    match (envelope.place_on(class, 1_000), answer) {
        (Ok(curve), Answer::Steps(steps)) => has_steps(&curve, steps),
        (Err(line), Answer::NotRising(expected)) => line == *expected,
        _ => false,
    }
}

fn is_answered(alloc: Global, sheet: &Sheet) -> bool {
    if sheet.text.len() > 65_536 {
        return false;
    }
    match (Envelope::read(alloc, sheet.text), &sheet.answer) {
        (Err(fault), Answer::Refused(expected)) => fault == *expected,
        (Ok(envelope), answer) => is_placed(envelope, answer),
        _ => false,
    }
}

#[test]
fn sheets(rt: HostRuntime) -> Result<(), Fail> {
    for sheet in &SHEETS {
        assert!(rt; is_answered(rt.alloc(), sheet), "{}", sheet.what);
    }
    Ok(())
}

/// The fault of a sheet, where it has one.
fn fault_of(alloc: Global, sheet: &[u8]) -> Option<EnvelopeFault> {
    if sheet.len() > 65_536 {
        return None;
    }
    Envelope::read(alloc, sheet).err()
}

/// A thousand points are accepted, and one more is a bad line.
#[test]
fn a_thousand_points(rt: HostRuntime) -> Result<(), Fail> {
    let mut sheet: Vec<u8> = Vec::new(rt.alloc());
    for _ in 0..1_000 {
        sheet.extend_from_slice(b"0 0\n")?;
    }
    assert!(rt; sheet.len() < 65_000);
    assert!(rt; fault_of(rt.alloc(), &sheet).is_none());
    sheet.extend_from_slice(b"#\n0 0\nx")?;
    assert!(rt; fault_of(rt.alloc(), &sheet) == Some(EnvelopeFault::Line(1_002)));
    Ok(())
}
