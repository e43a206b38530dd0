//! Info frames. Lengths and areas follow from the standard's rates and frequencies, worked out by hand.

use arrayvec::ArrayVec;
use frame_header::Header;
use info_header::{Info, head_text, info_slot, write_info};
use std::alloc::{AllocError, Global};
use std::process::Abort;
use std::test::Fail;
use test_files::files::Stretch::{Bytes, Fill};
use test_files::files::{INFO_FRONT, Stretch, bytes_of};
use test_files::{end_to_end, table};

/// A header of a class, and the bit rate index, the padding and the length of its Info frame.
struct Case {
    header: [u8; 4],
    rate_index: u8,
    padding: bool,
    length: u32,
}

static CASES: [Case; 18] = table! {
    Case { header, rate_index, padding, length }
    // MPEG-1, two channels: 36 bytes before the area, so at least 192 bytes.
    ([0xff, 0xfb, 0x90, 0x00], 5, false, 208)
    ([0xff, 0xfb, 0x94, 0x00], 5, false, 192)
    ([0xff, 0xfb, 0x98, 0x00], 3, false, 216)
    // One channel: 177 bytes.
    ([0xff, 0xfb, 0x90, 0xc0], 4, false, 182)
    ([0xff, 0xfb, 0x94, 0xc0], 5, false, 192)
    ([0xff, 0xfb, 0x98, 0xc0], 2, false, 180)
    // MPEG-2, two channels: 177 bytes.
    ([0xff, 0xf3, 0x90, 0x00], 7, false, 182)
    ([0xff, 0xf3, 0x94, 0x00], 8, false, 192)
    ([0xff, 0xf3, 0x98, 0x00], 5, false, 180)
    // One channel: 169 bytes.
    ([0xff, 0xf3, 0x90, 0xc0], 7, false, 182)
    ([0xff, 0xf3, 0x14, 0xc0], 7, true, 169)
    ([0xff, 0xf3, 0x98, 0xc0], 5, false, 180)
    // MPEG-2.5, two channels: 177 bytes.
    ([0xff, 0xe3, 0x90, 0x00], 4, false, 208)
    ([0xff, 0xe3, 0x94, 0x00], 4, false, 192)
    ([0xff, 0xe3, 0x98, 0x00], 3, false, 216)
    // One channel: 169 bytes.
    ([0xff, 0xe3, 0x90, 0xc0], 4, false, 208)
    ([0xff, 0xe3, 0x94, 0xc0], 4, false, 192)
    ([0xff, 0xe3, 0x98, 0xc0], 3, false, 216)
};

fn has_slot(case: &Case) -> bool {
    match Header::read(case.header) {
        Ok(header) => {
            let class = header.class();
            let slot = info_slot(class);
            slot.rate_index == case.rate_index
                && slot.padding == case.padding
                && class.length_of(slot) == case.length
        }
        Err(_) => false,
    }
}

#[test]
fn slots_of_each_class(rt: HostRuntime) -> Result<(), Fail> {
    for (number, case) in CASES.iter().enumerate() {
        assert!(rt; has_slot(case), "row {number}");
    }
    Ok(())
}

/// The Info frame of two frames of 417 bytes, 208 bytes long: 2 frames, 1042 bytes, the table, no quality, and the
/// extension.
static BEFORE_TWO: [Stretch; 8] = end_to_end! {
    INFO_FRONT, Bytes(b"Info\0\0\0\x0f"), Bytes(&[0, 0, 0, 2, 0, 0, 0x04, 0x12]), Fill(51, 50), Fill(153, 50),
    Fill(0, 4), Fill(9, 36), Fill(0, 16)
};

/// The table of two equal frames.
fn table_of_two() -> [u8; 100] {
    let mut table = [51; 100];
    for entry in table.iter_mut().skip(50) {
        *entry = 153;
    }
    table
}

/// Whether these bytes are that frame, with its text where the first frame without a check word would have it.
fn is_before_two(alloc: Global, first: &Header, bytes: &[u8]) -> Result<bool, AllocError> {
    let wanted = bytes_of(alloc, &BEFORE_TWO)?;
    if bytes != wanted.as_slice() {
        return Ok(false);
    }
    let header = first.unprotected(info_slot(first.class()));
    Ok(head_text(&header, bytes) == Some(36))
}

#[test]
fn a_frame_before_two_frames_of_128_kbit(rt: HostRuntime) -> Result<(), Fail> {
    // The first of the frames has a check word; the Info frame has none.
    let first = Header::read([0xff, 0xfa, 0x90, 0x00])?;
    let info = Info {
        vbr: false,
        frames: Some(2),
        bytes: Some(1042),
        table: Some(table_of_two()),
        quality: None,
        extension: [9; 36],
    };
    let mut frame = ArrayVec::new();
    frame.push(0x55);
    write_info(&first, &info, &mut frame);
    assert!(rt; is_before_two(rt.alloc(), &first, frame.as_slice())?);
    Ok(())
}

/// MPEG-2, 24,000 Hz, one channel: what is absent is written as 0, and so read back as 0.
fn is_of_exactly_156(bytes: &[u8], back: &Info) -> bool {
    bytes.len() == 169
        && bytes.starts_with(&[0xff, 0xf3, 0x76, 0xc0])
        && Info::read(bytes.get(13..).unwrap_or(&[])) == *back
}

#[test]
fn a_frame_of_exactly_156_bytes_of_area(rt: HostRuntime) -> Result<(), Fail> {
    let first = Header::read([0xff, 0xf3, 0x14, 0xc0])?;
    let info = Info {
        vbr: true,
        frames: None,
        bytes: Some(433),
        table: None,
        quality: Some(100),
        extension: [9; 36],
    };
    let back = Info {
        frames: Some(0),
        table: Some([0; 100]),
        ..info
    };
    let mut frame = ArrayVec::new();
    write_info(&first, &info, &mut frame);
    assert!(rt; is_of_exactly_156(frame.as_slice(), &back));
    Ok(())
}
