//! Files whose walk was worked out by hand, from the lengths of the standard's tables and the layouts of the blocks.

use super::shapes::{Shape, is_surveyed, survey_fault};
use super::stretches::{Case, HEAD, HEADER, OTHER_CLASS, SILENCE, Z};
use plain_reading::first_fault;
use std::alloc::{AllocError, Global};
use std::process::Abort;
use std::test::Fail;
use sync_survey::{Piece, SurveyFault};
use tag_blocks::{Block, Kind};
use test_files::files::Stretch::{Bytes, Fill};
use test_files::files::{APE, ID3V1, ID3V1_REST, ID3V2, ID3V2_REST, Stretch, bytes_of};
use test_files::table;

/// A file, and what its survey finds.
pub type Walk = Case<Result<Shape, SurveyFault>>;

/// Two silent frames.
pub const TWO_FRAMES: &[Stretch] = &[Z, Z];

/// The header of a frame of 72 bytes: MPEG-2.5, 8,000 Hz, 8 kbit/s, one channel.
const SLOW_HEADER: Stretch = Bytes(&[0xff, 0xe3, 0x18, 0xc0]);

/// The same header with the version that the standard reserves.
const RESERVED_VERSION: Stretch = Bytes(&[0xff, 0xeb, 0x18, 0xc0]);

/// What is after that header in a silent frame.
const SLOW_SILENCE: Stretch = Fill(0, 68);

pub static CASES: [Walk; 22] = table! {
    Case { name, file, answer }
    ("an empty file", &[], Err(SurveyFault::NoFrame(0)))
    ("zero bytes alone", &[Fill(0, 3)], Err(SurveyFault::NoFrame(3)))
    ("two frames", &[Z, Z],
        Ok(Shape { front_end: 0, first: 0, text_at: None, frames: &[0, 417], blocks: &[] }))
    ("a false frame in junk, which ends at 559 on a zero byte",
        &[ID3V2, ID3V2_REST, Fill(0, 2), Fill(0x55, 100), HEADER, Fill(0x55, 196), Z, Z, APE, ID3V1, ID3V1_REST],
        Ok(Shape { front_end: 42, first: 342, text_at: None, frames: &[342, 759], blocks: &[Piece { offset: 0, block: Block { kind: Kind::Id3v2, length: 40 } }, Piece { offset: 1176, block: Block { kind: Kind::Ape, length: 79 } }, Piece { offset: 1255, block: Block { kind: Kind::Id3v1, length: 128 } }] }))
    ("zero bytes between frames, and a block of 40 bytes", &[Z, Fill(0, 3), Z, ID3V2, ID3V2_REST, Z],
        Ok(Shape { front_end: 0, first: 0, text_at: None, frames: &[0, 420, 877], blocks: &[Piece { offset: 837, block: Block { kind: Kind::Id3v2, length: 40 } }] }))
    ("frames of one channel, MPEG-2",
        &[Bytes(&[0xff, 0xf3, 0x14, 0xc0]), Fill(0, 20), Bytes(&[0xff, 0xf3, 0x14, 0xc0]), Fill(0, 20)],
        Ok(Shape { front_end: 0, first: 0, text_at: None, frames: &[0, 24], blocks: &[] }))
    ("a byte 41 behind a zero byte", &[Z, Z, Bytes(&[0x00, 0x41])], Err(SurveyFault::LostSync(835)))
    ("free format in the first frame", &[Bytes(&[0xff, 0xfb, 0x00, 0x00]), SILENCE, Z],
        Err(SurveyFault::FreeFormat(0)))
    ("a head alone", &[HEAD], Err(SurveyFault::NoFrame(417)))
    ("a head and a frame", &[HEAD, Z],
        Ok(Shape { front_end: 0, first: 0, text_at: Some(36), frames: &[417], blocks: &[] }))
    ("a protected head with its text behind the check word",
        &[Bytes(&[0xff, 0xfa, 0x90, 0x00]), Fill(0, 34), Bytes(b"Xing"), Fill(0, 375), Z],
        Ok(Shape { front_end: 0, first: 0, text_at: Some(38), frames: &[417], blocks: &[] }))
    ("the text in the second frame", &[Z, HEAD],
        Ok(Shape { front_end: 0, first: 0, text_at: None, frames: &[0, 417], blocks: &[] }))
    ("a block at the front that passes the end", &[Fill(0, 2), ID3V2, Fill(0x11, 29)],
        Err(SurveyFault::Truncated(2)))
    ("a block behind a frame that passes the end", &[Z, ID3V1, Fill(0x20, 124)],
        Err(SurveyFault::Truncated(417)))
    ("a frame at the front needs no anchor", &[Z, Fill(0x55, 4)], Err(SurveyFault::LostSync(417)))
    ("a frame in junk that ends on another class, which the file's end anchors",
        &[Fill(0x55, 10), Z, OTHER_CLASS, Fill(0, 380)],
        Ok(Shape { front_end: 0, first: 427, text_at: None, frames: &[427], blocks: &[] }))
    ("an anchor that is the beginning of a block", &[Fill(0x55, 10), Z, ID3V1],
        Err(SurveyFault::Truncated(427)))
    ("an anchor that is the beginning of a frame", &[Fill(0x55, 10), Z, HEADER],
        Err(SurveyFault::Truncated(427)))
    ("a frame at the last offset behind junk", &[Fill(0x55, 65_536), Z],
        Ok(Shape { front_end: 0, first: 65536, text_at: None, frames: &[65536], blocks: &[] }))
    ("a frame one byte later", &[Fill(0x55, 65_537), Z], Err(SurveyFault::NoFrame(0)))
    ("a frame of the reserved version, and one of MPEG-2.5 that the file's end anchors",
        &[RESERVED_VERSION, SLOW_SILENCE, SLOW_HEADER, SLOW_SILENCE],
        Ok(Shape { front_end: 0, first: 72, text_at: None, frames: &[72], blocks: &[] }))
    ("the first of them alone", &[RESERVED_VERSION, SLOW_SILENCE], Err(SurveyFault::NoFrame(0)))
};

/// The name of the first case whose survey gives another result.
pub fn first_wrong(alloc: Global, cases: &[Walk]) -> Result<Option<&'static str>, AllocError> {
    for case in cases {
        let file = bytes_of(alloc, case.file)?;
        if !is_surveyed(alloc, &file, &case.answer)? {
            return Ok(Some(case.name));
        }
    }
    Ok(None)
}

#[test]
fn files(rt: HostRuntime) -> Result<(), Fail> {
    let wrong = first_wrong(rt.alloc(), &CASES)?.unwrap_or("");
    assert!(rt; wrong.is_empty(), "{wrong}");
    Ok(())
}

/// Two frames with another value of one byte.
fn changed(alloc: Global, at: usize, value: u8) -> Result<Vec<u8>, AllocError> {
    let mut file = bytes_of(alloc, TWO_FRAMES)?;
    if let Some(byte) = file.get_mut(at) {
        *byte = value;
    }
    Ok(file)
}

/// Whether the survey finds what the plain reading does.
fn is_plain(alloc: Global, at: usize, value: u8) -> Result<bool, AllocError> {
    let file = changed(alloc, at, value)?;
    let found = survey_fault(alloc, &file, 1000)?;
    Ok(found == first_fault(alloc, &file, 1000)?)
}

/// The first byte of the second header, and its first value, for which it doesn't.
fn wrong_change(alloc: Global) -> Result<Option<(usize, u8)>, AllocError> {
    for at in 417..421 {
        for value in 0..=255 {
            if !is_plain(alloc, at, value)? {
                return Ok(Some((at, value)));
            }
        }
    }
    Ok(None)
}

#[test]
fn changed_headers(rt: HostRuntime) -> Result<(), Fail> {
    let (at, value) = wrong_change(rt.alloc())?.unwrap_or((0, 0));
    assert!(rt; at == 0, "byte {at} as {value}");
    Ok(())
}
