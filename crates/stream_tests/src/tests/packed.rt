//! One file packed in each mode, with bit rates below, at and above its own, and with numbers that aren't bit rates; the
//! bytes were worked out by hand.

use commands::{EditFault, Refusal};
use outside::MemFolder;
use pack_edits::{PackMode, pack_with};
use std::alloc::{AllocError, Global};
use std::process::Abort;
use std::test::Fail;
use sync_survey::SurveyFault;
use test_files::files::Stretch::{Bytes, Fill, Filled};
use test_files::files::{INFO_FRONT, OF_300, OF_400, Stretch, TWO, bytes_of};
use test_files::{end_to_end, table};

/// What is in the output before, and stays there where nothing is written.
const OLD: &[Stretch] = &[Bytes(b"old")];

/// A lead-in and two frames of 313 bytes with areas of 277: without the lead-in there is no room for the main data. The
/// main data of the first frame begin with the lead-in's area, the second frame's 254 bytes before its own area.
const ALL_OF_96: &[Stretch] = &end_to_end! {
    INFO_FRONT, Bytes(b"Info\0\0\0\x0f\0\0\0\x03\0\0\x04\x7b"), Fill(46, 34), Fill(116, 33), Fill(186, 33),
    Fill(0, 56),
    Filled(&[0xff, 0xfb, 0x70, 0x00], 0, 32), Fill(0x11, 277),
    Filled(&[0xff, 0xfb, 0x70, 0x00, 0x8a, 0x80, 0x09, 0x60], 0, 28), Fill(0x11, 23), Fill(0x22, 254),
    Filled(&[0xff, 0xfb, 0x70, 0x00, 0x7f, 0x00, 0x0c, 0x80], 0, 28), Fill(0x22, 146), Fill(0, 131)
};

/// Both frames of 128 kbit/s, as they were.
const FROM_128: &[Stretch] = &end_to_end! {
    INFO_FRONT, Bytes(b"Info\0\0\0\x0f\0\0\0\x02\0\0\x04\x12"), Fill(51, 50), Fill(153, 50), Fill(0, 56),
    OF_300, Fill(0x11, 300), Fill(0x22, 81),
    OF_400, Fill(0x22, 319), Fill(0, 62)
};

/// The first frame at 112 kbit/s, with an area of 329, the last 29 bytes of which are left for the second at
/// 128 kbit/s: 990 bytes.
const LEAST: &[Stretch] = &end_to_end! {
    INFO_FRONT, Bytes(b"Xing\0\0\0\x0f\0\0\0\x02\0\0\x03\xde"), Fill(53, 50), Fill(148, 50), Fill(0, 56),
    Filled(&[0xff, 0xfb, 0x80, 0x00, 0x00, 0x00, 0x09, 0x60], 0, 28), Fill(0x11, 300), Fill(0x22, 29),
    Filled(&[0xff, 0xfb, 0x90, 0x00, 0x0e, 0x80, 0x0c, 0x80], 0, 28), Fill(0x22, 371), Fill(0, 10)
};

/// A mode, its result, and what is in the output then.
struct Row {
    mode: PackMode,
    answer: Result<(), EditFault>,
    after: &'static [Stretch],
}

static ROWS: [Row; 11] = table! {
    Row { mode, answer, after }
    (PackMode::Least, Ok(()), LEAST)
    // No list of areas has a smaller sum than 329 and 381, and this is the first list with this sum.
    (PackMode::Best, Ok(()), LEAST)
    (PackMode::Constant(96), Ok(()), ALL_OF_96)
    (PackMode::Constant(128), Ok(()), FROM_128)
    (PackMode::Constant(64), Err(EditFault::Refused(Refusal::Unfit(1))), OLD)
    (PackMode::Constant(32), Err(EditFault::Refused(Refusal::Unfit(0))), OLD)
    (PackMode::Constant(100), Err(EditFault::Refused(Refusal::NoRate(100))), OLD)
    (PackMode::Floor(32), Ok(()), LEAST)
    (PackMode::Floor(128), Ok(()), FROM_128)
    // Bit rates that only MPEG-2 has, and one that no version has.
    (PackMode::Floor(8), Err(EditFault::Refused(Refusal::NoRate(8))), OLD)
    (PackMode::Floor(0), Err(EditFault::Refused(Refusal::NoRate(0))), OLD)
};

fn put_files(alloc: Global, folder: &mut MemFolder) -> Result<(), AllocError> {
    folder.put("a", &bytes_of(alloc, TWO)?)?;
    folder.put("b", &bytes_of(alloc, OLD)?)?;
    folder.reserve("b", 2000)
}

fn has_output(folder: &MemFolder, wanted: &[u8]) -> bool {
    folder.get("b") == Some(wanted)
}

/// Whether the mode has its result, and the output what is in it then.
fn holds(alloc: Global, folder: &mut MemFolder, row: &Row) -> Result<bool, AllocError> {
    put_files(alloc, folder)?;
    let is_answered = pack_with(alloc, folder, "a", "b", &row.mode) == row.answer;
    let wanted = bytes_of(alloc, row.after)?;
    Ok(is_answered && has_output(folder, &wanted))
}

/// Whether a fault of the input comes before a fault of the bit rate.
fn is_absent_first(alloc: Global, folder: &mut MemFolder) -> bool {
    let answer = pack_with(alloc, folder, "c", "b", &PackMode::Constant(100));
    answer == Err(EditFault::Input(0, SurveyFault::Absent))
}

/// The first row that doesn't hold; the number of rows, where all hold.
fn first_wrong(alloc: Global, folder: &mut MemFolder) -> Result<usize, AllocError> {
    for (number, row) in ROWS.iter().enumerate() {
        if !holds(alloc, folder, row)? {
            return Ok(number);
        }
    }
    Ok(ROWS.len())
}

#[test]
fn each_mode_packs_or_refuses(rt: HostRuntime) -> Result<(), Fail> {
    let mut folder = MemFolder::new(rt.alloc());
    assert!(rt; is_absent_first(rt.alloc(), &mut folder));
    let wrong = first_wrong(rt.alloc(), &mut folder).unwrap_or(0);
    assert!(rt; wrong == 11, "row {wrong}");
    Ok(())
}
