//! Exact pieces. Their frames, delay and padding were worked out by hand; the tag CRCs are from a program in Python that follows
//! the description of LAME's tag.

use commands::{EditFault, Refusal};
use cut_edits::cut_exact;
use exact_span::ExactPlace;
use outside::MemFolder;
use std::alloc::{AllocError, Global};
use std::process::Abort;
use std::test::Fail;
use test_files::files::Stretch::{Bytes, Fill, Filled, Frame};
use test_files::files::{INFO_FRONT, OF_300, OF_400, Stretch, TWO, bytes_of};
use test_files::{end_to_end, table};

/// What is in the output before, and stays there where nothing is written.
const OLD: &[Stretch] = &[Bytes(b"old")];

/// A head of 417 bytes that counts four frames, with delay 576 and padding 720, and these frames, which are silent: the
/// positions from 1,105 to before 4,417 are played.
const BY_LAME: &[Stretch] = &end_to_end! {
    Filled(&[0xff, 0xfb, 0x90, 0x00], 0, 32), Bytes(b"Info\0\0\0\x0f\0\0\0\x04\0\0\x08\x25"), Fill(0, 100), Bytes(b"\0\0\0\x39"),
    Bytes(b"LAME3.100"), Fill(0x11, 12), Bytes(b"\x24\x02\xd0"), Fill(0x22, 12), Fill(0, 225),
    Frame(0, 0), Frame(0, 0), Frame(0, 0), Frame(0, 0)
};

/// A head, and a frame whose main data begin in its area.
const INTO_HEAD: &[Stretch] = &end_to_end! {
    Filled(&[0xff, 0xfb, 0x90, 0x00], 0, 32), Filled(b"Info", 0, 377),
    Filled(&[0xff, 0xfb, 0x90, 0x00, 0x14, 0x00, 0x0c, 0x80], 0, 28), Fill(0x22, 381)
};

/// A protected frame of MPEG-2 with one byte of main data.
const PROTECTED: &[Stretch] = &[Filled(
    b"\xff\xf2\x14\xc0\xe9\x52\0\0\x40\x01\x90\0\0\0\0\xaa",
    0,
    8,
)];

/// Both frames, from the middle of the first one on: 1,042 bytes. The text, the numbers, and 50 entries of the table
/// for each frame.
const BOTH: &[Stretch] = &end_to_end! {
    INFO_FRONT, Bytes(b"Info\0\0\0\x0f\0\0\0\x02\0\0\x04\x12"), Fill(51, 50), Fill(153, 50), Fill(0, 4),
    Filled(b"LAME", 0, 17), Bytes(b"\x26\xf2\x11\0\0\0\0\0\0\x04\x12\0\0\x8a\x70"), Fill(0, 16),
    OF_300, Fill(0x11, 300), Fill(0x22, 81),
    OF_400, Fill(0x22, 319), Fill(0, 62)
};

/// A lead-in of 104 bytes, with an area of 68, and both frames.
const LED: &[Stretch] = &end_to_end! {
    INFO_FRONT, Bytes(b"Xing\0\0\0\x0f\0\0\0\x03\0\0\x04\x7a"), Fill(46, 34), Fill(69, 33), Fill(162, 33), Fill(0, 4),
    Filled(b"LAME", 0, 17), Bytes(b"\x26\xf2\x11\0\0\0\0\0\0\x04\x7a\0\0\xcf\x7d"), Fill(0, 16),
    Filled(&[0xff, 0xfb, 0x10, 0x00], 0, 32), Fill(0x11, 68),
    Filled(&[0xff, 0xfb, 0x90, 0x00, 0x22, 0x00, 0x09, 0x60], 0, 28), Fill(0x11, 232), Fill(0x22, 149),
    Filled(&[0xff, 0xfb, 0x90, 0x00, 0x4a, 0x80, 0x0c, 0x80], 0, 28), Fill(0x22, 251), Fill(0, 130)
};

/// All four frames, with their main data as early as possible.
const ALL_BY_LAME: &[Stretch] = &end_to_end! {
    INFO_FRONT, Bytes(b"Info\0\0\0\x0f\0\0\0\x04\0\0\x07\x54"), Fill(28, 25), Fill(85, 25), Fill(142, 25), Fill(199, 25),
    Bytes(b"\0\0\0\x39"),
    Bytes(b"LAME3.100"), Fill(0x11, 12), Bytes(b"\x24\x02\xd0\x22\x22\x22\x22\0\0\x07\x54\0\0\x30\x4a"), Fill(0, 16),
    Frame(0, 0), Frame(381, 0), Frame(511, 0), Frame(511, 0)
};

/// The second frame and the third.
const TWO_BY_LAME: &[Stretch] = &end_to_end! {
    INFO_FRONT, Bytes(b"Info\0\0\0\x0f\0\0\0\x02\0\0\x04\x12"), Fill(51, 50), Fill(153, 50), Bytes(b"\0\0\0\x39"),
    Bytes(b"LAME3.100"), Fill(0x11, 12), Bytes(b"\x2e\xb2\xa3\x22\x22\x22\x22\0\0\x04\x12\0\0\x1c\x9c"), Fill(0, 16),
    Frame(0, 0), Frame(381, 0)
};

/// A lead-in and an empty frame.
const LOST: &[Stretch] = &end_to_end! {
    INFO_FRONT, Bytes(b"Xing\0\0\0\x0f\0\0\0\x02\0\0\x02\xd9"), Fill(73, 50), Fill(109, 50), Fill(0, 4),
    Filled(b"LAME", 0, 17), Bytes(b"\x26\xf2\x11\0\0\0\0\0\0\x02\xd9\0\0\xcd\x81"), Fill(0, 16),
    Filled(&[0xff, 0xfb, 0x10, 0x00], 0, 32), Fill(0, 68), Frame(68, 0)
};

/// A lead-in, which has the byte of main data in its area, and the frame with its check word.
const LED_PROTECTED: &[Stretch] = &end_to_end! {
    Filled(&[0xff, 0xf3, 0x76, 0xc0], 0, 9), Bytes(b"Info\0\0\0\x0f\0\0\0\x02\0\0\0\xd9"), Fill(199, 50), Fill(227, 50), Fill(0, 4),
    Filled(b"LAME", 0, 17), Bytes(b"\x02\xf2\x11\0\0\0\0\0\0\0\xd9\0\0\xe1\xf0"),
    Filled(&[0xff, 0xf3, 0x14, 0xc0], 0, 9), Bytes(b"\xaa"), Fill(0, 10),
    Bytes(b"\xff\xf2\x14\xc0\x50\xf1\x0b\0\x40\x01\x90\0\0\0\0"), Fill(0, 9)
};

/// An input, the words of two places, the result, and what is in the output then.
struct Row {
    input: &'static [Stretch],
    places: [&'static str; 2],
    answer: Result<(), EditFault>,
    after: &'static [Stretch],
}

static ROWS: [Row; 10] = table! {
    Row { input, places, answer, after }
    (TWO, ["1", "2"], Ok(()), BOTH)
    // The first sample comes before the end of a decoder's delay.
    (TWO, ["0", "EOF"], Ok(()), LED)
    (TWO, ["0", "3"], Err(EditFault::Refused(Refusal::Span(0, 3456, 2304))), OLD)
    (TWO, ["1152samples", "1"], Err(EditFault::Refused(Refusal::Span(1152, 1152, 2304))), OLD)
    (BY_LAME, ["0", "EOF"], Ok(()), ALL_BY_LAME)
    (BY_LAME, ["0.00.03", "0.00.05"], Ok(()), TWO_BY_LAME)
    // A piece of a piece.
    (TWO_BY_LAME, ["0", "EOF"], Ok(()), TWO_BY_LAME)
    (BY_LAME, ["0", "3313samples"], Err(EditFault::Refused(Refusal::Span(0, 3313, 3312))), OLD)
    (INTO_HEAD, ["0", "EOF"], Ok(()), LOST)
    (PROTECTED, ["0", "1"], Ok(()), LED_PROTECTED)
};

fn put_files(alloc: Global, folder: &mut MemFolder, row: &Row) -> Result<(), AllocError> {
    folder.put("a", &bytes_of(alloc, row.input)?)?;
    folder.put("b", &bytes_of(alloc, OLD)?)?;
    folder.reserve("b", 2000)
}

/// The result for the row's places; `None` where a word is no place.
fn answer_of(alloc: Global, folder: &mut MemFolder, row: &Row) -> Option<Result<(), EditFault>> {
    let from = ExactPlace::read(row.places[0])?;
    let to = ExactPlace::read(row.places[1])?;
    Some(cut_exact(alloc, folder, "a", &from, &to, "b"))
}

/// Whether the row has its result, and the output what is in it then.
fn holds(alloc: Global, folder: &mut MemFolder, row: &Row) -> Result<bool, AllocError> {
    put_files(alloc, folder, row)?;
    let is_answered = answer_of(alloc, folder, row) == Some(row.answer);
    let wanted = bytes_of(alloc, row.after)?;
    Ok(is_answered && folder.get("b") == Some(wanted.as_slice()))
}

/// The first row that doesn't hold; the number of rows, where all hold.
fn first_wrong(alloc: Global, folder: &mut MemFolder) -> Result<usize, AllocError> {
    for (number, row) in ROWS.iter().enumerate() {
        if !holds(alloc, folder, row)? {
            return Ok(number);
        }
    }
    Ok(ROWS.len())
}

#[test]
fn pieces_have_their_bytes(rt: HostRuntime) -> Result<(), Fail> {
    let mut folder = MemFolder::new(rt.alloc());
    let wrong = first_wrong(rt.alloc(), &mut folder).unwrap_or(99);
    assert!(rt; wrong == 10, "row {wrong}");
    Ok(())
}
