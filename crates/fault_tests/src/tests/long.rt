//! Files that are longer than the buffer of 65,536 bytes.

use super::shapes::{Shape, is_surveyed};
use super::stretches::{Case, Z};
use super::walks::{Walk, first_wrong};
use std::alloc::{AllocError, Global};
use std::process::Abort;
use std::test::Fail;
use sync_survey::{Piece, SurveyFault};
use tag_blocks::{Block, Kind};
use test_files::files::Stretch::{Bytes, Fill};
use test_files::files::{Stretch, bytes_of};
use test_files::table;

/// ID3v2 with 100,000 bytes after its header: 6 * 16,384 + 13 * 128 + 32.
const LONG_ID3V2: &[u8] = &[b'I', b'D', b'3', 4, 0, 0, 0, 6, 13, 32];

const LONG_BLOCK: Block = Block {
    kind: Kind::Id3v2,
    length: 100_010,
};

const LONG_BLOCKS: &[Piece] = &[
    Piece {
        offset: 0,
        block: LONG_BLOCK,
    },
    Piece {
        offset: 100_427,
        block: LONG_BLOCK,
    },
];

static CASES: [Walk; 2] = table! {
    Case { name, file, answer }
    ("blocks longer than the buffer",
        &[Bytes(LONG_ID3V2), Fill(0x11, 100_000), Z, Bytes(LONG_ID3V2), Fill(0xff, 100_000), Z],
        Ok(Shape { front_end: 100_010, first: 100_010, text_at: None, frames: &[100_010, 200_437], blocks: LONG_BLOCKS }))
    ("zero bytes over several buffers", &[Fill(0, 200_000), Z, Fill(0, 150_000), Z],
        Ok(Shape { front_end: 200_000, first: 200_000, text_at: None, frames: &[200_000, 350_417], blocks: &[] }))
};

#[test]
fn blocks_and_zero_bytes(rt: HostRuntime) -> Result<(), Fail> {
    assert!(rt; first_wrong(rt.alloc(), &CASES)?.is_none());
    Ok(())
}

/// Whether the frame at the offset is found, with one bit too many.
fn is_across(alloc: Global, offset: usize) -> Result<bool, AllocError> {
    let before = offset.saturating_sub(417);
    let file = bytes_of(alloc, &[Fill(0, before), Z, Stretch::Frame(0, 3049), Z])?;
    let answer = Err(SurveyFault::Overrun(offset as u64, 3049, 3048));
    is_surveyed(alloc, &file, &answer)
}

/// The header or the side information of the frame crosses the end of the buffer.
#[test]
fn a_frame_across_the_end_of_the_buffer(rt: HostRuntime) -> Result<(), Fail> {
    for offset in 65_490..65_540 {
        assert!(rt; is_across(rt.alloc(), offset)?, "{offset}");
    }
    Ok(())
}
