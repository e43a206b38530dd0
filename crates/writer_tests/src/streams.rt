//! A file that the crates below put together, and what a survey finds in it. The places were worked out by hand from the
//! standard's rule of the frame length (ISO/IEC 11172-3, 2.4.3.1).

use crate::outputs::{are_at, put_empty};
use crate::writers::{Main, write_all};
use arrayvec::ArrayVec;
use frame_header::Header;
use info_header::{info_over, write_info};
use outside::MemFolder;
use std::alloc::{AllocError, AllocGlobal, Global};
use std::process::Abort;
use std::test::Fail;
use sync_survey::{Head, Piece, Row, Survey, survey};
use tag_blocks::{Block, Kind};

/// MPEG-1, 128 kbit/s at 44,100 Hz in two channels: 417 bytes, and an area of 381. An Info frame before such frames
/// has 208 bytes, at 64 kbit/s.
static PLAIN: [u8; 4] = [0xff, 0xfb, 0x90, 0x00];

/// An ID3v2 tag of 2 bytes after its header of 10.
static ID3V2: [u8; 12] = *b"ID3\x03\x00\x00\x00\x00\x00\x02ab";

/// The first 3 bytes of an ID3v1 tag of 128, which has 125 spaces after them.
static ID3V1: [u8; 3] = *b"TAG";

static BLOCKS: [Piece; 2] = [
    Piece {
        offset: 0,
        block: Block {
            kind: Kind::Id3v2,
            length: 12,
        },
    },
    Piece {
        offset: 1471,
        block: Block {
            kind: Kind::Id3v1,
            length: 128,
        },
    },
];

/// Three frames: the second is silent, and the main
/// data of the third begin in the area of the first.
static FRAMES: [Main; 3] = [
    Main {
        begin: 0,
        bits: 2400,
        bytes: &[0x11; 300],
        after: None,
    },
    Main {
        begin: 81,
        bits: 0,
        bytes: &[],
        after: None,
    },
    Main {
        begin: 462,
        bits: 3992,
        bytes: &[0x22; 499],
        after: None,
    },
];

/// ID3v2, an Info frame at 12, the frames at 220, 637 and 1,054, and ID3v1 at 1,471: 1,599 bytes.
fn file_around(alloc: Global, header: &Header, frames: &[u8]) -> Result<Vec<u8>, Fail> {
    let mut info: ArrayVec<u8, 1441> = ArrayVec::new();
    write_info(
        header,
        &info_over(header.class(), &[header.slot; 3]),
        &mut info,
    );
    let mut file = Vec::new(alloc);
    file.extend_from_slice(&ID3V2)?;
    file.extend_from_slice(info.as_slice())?;
    file.extend_from_slice(frames)?;
    file.extend_from_slice(&ID3V1)?;
    file.extend_from_slice(&[b' '; 125])?;
    Ok(file)
}

fn is_row(row: &Row, offset: u32, begin: u16, bits: u32) -> bool {
    row.offset() == offset
        && !row.lost()
        && row.side().main_data_begin == begin
        && row.extent().bits == bits
}

fn has_rows(rows: &[Row]) -> bool {
    match rows {
        [first, second, third] => {
            is_row(first, 220, 0, 2400)
                && is_row(second, 637, 81, 0)
                && is_row(third, 1054, 462, 3992)
        }
        _ => false,
    }
}

fn has_head(head: Option<Head>) -> bool {
    match head {
        Some(head) => head.offset == 12 && head.text_at == 36,
        None => false,
    }
}

fn has_places(survey: &Survey) -> bool {
    survey.junk() == (12, 0) && survey.length() == 1599 && has_head(survey.head())
}

fn is_surveyed(survey: &Survey) -> bool {
    has_places(survey) && survey.blocks() == BLOCKS.as_slice() && has_rows(survey.frames())
}

/// The whole file around the frames, which are written to `o`.
fn file_over<R: Abort + AllocGlobal>(rt: &R, folder: &mut MemFolder) -> Result<Vec<u8>, Fail> {
    put_empty(folder, "o", 1251)?;
    let header = Header::read(PLAIN)?;
    write_all(rt, rt.alloc(), &header, &FRAMES, folder)?;
    file_around(rt.alloc(), &header, folder.get("o").unwrap_or(&[]))
}

fn whole_file<R: Abort + AllocGlobal>(rt: &R) -> Result<Vec<u8>, Fail> {
    let mut folder = MemFolder::new(rt.alloc());
    file_over(rt, &mut folder)
}

fn surveyed(alloc: Global, file: &[u8]) -> Result<Option<Survey>, AllocError> {
    let mut folder = MemFolder::new(alloc);
    folder.put("whole", file)?;
    Ok(survey(alloc, &mut folder, "whole", 3).ok())
}

#[test]
fn a_file_of_three_frames(rt: HostRuntime) -> Result<(), Fail> {
    let file = whole_file(&rt)?;
    // The third frame's main data begin 300 bytes into the first one's area, at 256, and skip the 36 bytes before each of
    // the two areas after it.
    let places = [555, 556, 673, 1126, 1127];
    assert!(rt; are_at(&file, &places, &[0x11, 0x22, 0x22, 0x22, 0]));
    let survey = surveyed(rt.alloc(), &file)?.ok_or("no survey")?;
    assert!(rt; is_surveyed(&survey));
    Ok(())
}
