//! The survey of a file of a folder: what it finds in
//! a well-formed file, and what a folder may do to it.

use super::untold::Untold;
use frame_header::{Class, Version};
use outside::{Call, Folder, MemFolder};
use std::alloc::{AllocError, Global};
use std::process::Abort;
use std::test::Fail;
use sync_survey::{Head, Piece, Row, Survey, SurveyFault, survey};
use tag_blocks::{Block, Kind};
use test_files::files::Stretch::{Fill, Frames};
use test_files::files::{APE, ID3V1_BLOCK, ID3V2_BLOCK, Stretch, bytes_of};
use test_files::frames::{HEAD, Z};
use test_files::{end_to_end, table};

/// ID3v2, 2 zero bytes, 300 bytes of junk, a head at 342, two frames at 759 and 1,176, and at 1,593 and
/// 1,672 APEv2 and ID3v1: 1,800 bytes.
static SONG: [Stretch; 7] = end_to_end! {
    ID3V2_BLOCK, Fill(0, 2), Fill(0x55, 300), Frames(&[HEAD, Z]), Stretch::Frame(200, 2400), APE, ID3V1_BLOCK
};

static BLOCKS: [Piece; 3] = table! {
    Piece { offset, block }
    (0, Block { kind: Kind::Id3v2, length: 40 })
    (1593, Block { kind: Kind::Ape, length: 79 })
    (1672, Block { kind: Kind::Id3v1, length: 128 })
};

/// MPEG-1, 44,100 Hz, 128 kbit/s, stereo.
const HEADER: [u8; 4] = [0xff, 0xfb, 0x90, 0x00];

const CLASS: Class = Class {
    version: Version::One,
    frequency_index: 0,
    channels: 2,
};

fn has_places(survey: &Survey) -> bool {
    survey.junk() == (42, 300) && survey.first() == 342 && survey.length() == 1800
}

fn is_row(row: &Row, offset: u32, begin: u16, bits: u32) -> bool {
    row.offset() == offset
        && row.header().bytes() == HEADER
        && row.side().main_data_begin == begin
        && row.extent().bits == bits
}

fn has_frames(rows: &[Row]) -> bool {
    match rows {
        [first, second] => is_row(first, 759, 0, 0) && is_row(second, 1176, 200, 2400),
        _ => false,
    }
}

fn has_head(head: Option<Head>) -> bool {
    match head {
        Some(head) => { head.offset == 342 && head.header.bytes() == HEADER && head.text_at == 36 }
        None => false,
    }
}

/// The survey of the file, with at most two frames allowed, where there is one.
fn surveyed(alloc: Global, parts: &[Stretch]) -> Result<Option<Survey>, AllocError> {
    let file = bytes_of(alloc, parts)?;
    let mut folder = MemFolder::new(alloc);
    folder.put("song", &file)?;
    Ok(survey(alloc, &mut folder, "song", 2).ok())
}

fn expect_song<R: Abort>(rt: &R, survey: &Survey) {
    assert!(rt; has_places(survey) && survey.class() == CLASS);
    assert!(rt; survey.blocks() == BLOCKS.as_slice());
    assert!(rt; has_head(survey.head()) && has_frames(survey.frames()));
}

#[test]
fn a_song(rt: HostRuntime) -> Result<(), Fail> {
    let survey = surveyed(rt.alloc(), &SONG)?.ok_or("no survey")?;
    expect_song(&rt, &survey);
    Ok(())
}

/// The fault that a survey with `allowed` frames allowed finds, where there is one.
fn fault_of<D: Folder>(
    alloc: Global,
    folder: &mut D,
    name: &str,
    allowed: u32,
) -> Option<SurveyFault> {
    match survey(alloc, folder, name, allowed) {
        Ok(_) => None,
        Err(fault) => Some(fault),
    }
}

fn is_absent<D: Folder>(alloc: Global, folder: &mut D) -> bool {
    fault_of(alloc, folder, "son", 2) == Some(SurveyFault::Absent)
        && fault_of(alloc, folder, "song", 2) == Some(SurveyFault::NoFrame(0))
}

#[test]
fn no_file_of_that_name(rt: HostRuntime) -> Result<(), Fail> {
    let mut folder = MemFolder::new(rt.alloc());
    folder.put("song", b"")?;
    assert!(rt; is_absent(rt.alloc(), &mut folder));
    Ok(())
}

/// What a survey finds where this call fails, and whether the file is left as it was.
#[derive(Clone, Copy)]
struct Outcome {
    fault: Option<SurveyFault>,
    is_left: bool,
}

fn outcome_of(alloc: Global, folder: &mut MemFolder, file: &[u8]) -> Outcome {
    let fault = fault_of(alloc, folder, "song", 1000);
    Outcome {
        fault,
        is_left: folder.get("song") == Some(file),
    }
}

fn outcome_in(
    alloc: Global,
    folder: &mut MemFolder,
    file: &[u8],
    kind: Call,
    number: u64,
) -> Result<Outcome, AllocError> {
    folder.put("song", file)?;
    folder.fail(kind, number)?;
    Ok(outcome_of(alloc, folder, file))
}

fn outcome_where_it_fails(
    alloc: Global,
    file: &[u8],
    kind: Call,
    number: u64,
) -> Result<Outcome, AllocError> {
    let mut folder = MemFolder::new(alloc);
    outcome_in(alloc, &mut folder, file, kind, number)
}

/// Makes the calls of a kind fail in order, until a survey makes fewer; returns how many it makes, where each
/// failure is reported.
fn told_in_turn(alloc: Global, file: &[u8], kind: Call) -> Result<Option<u64>, AllocError> {
    for number in 1..10 {
        let outcome = outcome_where_it_fails(alloc, file, kind, number)?;
        match outcome.fault {
            _ if !outcome.is_left => return Ok(None),
            Some(fault) if fault == SurveyFault::Read => {}
            Some(_) => return Ok(None),
            None => return Ok(Some(number - 1)),
        }
    }
    Ok(None)
}

/// 200,160 bytes: more than three times what a read gives.
#[test]
fn calls_that_fail(rt: HostRuntime) -> Result<(), Fail> {
    let file = bytes_of(rt.alloc(), &[Stretch::Repeated(&[Z], 480)])?;
    assert!(rt; told_in_turn(rt.alloc(), &file, Call::Find)? == Some(1));
    assert!(rt; told_in_turn(rt.alloc(), &file, Call::Read)? > Some(3));
    Ok(())
}

/// The length with which a file is found, its bytes, the fault, and how many reads there are: each of at most 65,536 bytes, up to one
/// that gives none.
struct Ending {
    found: u64,
    file: &'static [Stretch],
    fault: SurveyFault,
    reads: u64,
}

static ENDINGS: [Ending; 5] = table! {
    Ending { found, file, fault, reads }
    (839, &[Fill(0, 834)], SurveyFault::Shrunk(839, 834), 2)
    (1, &[], SurveyFault::Shrunk(1, 0), 1)
    (200_000, &[Fill(0, 150_000)], SurveyFault::Shrunk(200_000, 150_000), 4)
    (4, &[Fill(0, 5)], SurveyFault::NoFrame(4), 1)
    // A file that is too long.
    (1_073_741_825, &[], SurveyFault::TooLong(1_073_741_825), 0)
};

/// Whether the survey finds its fault after the wanted number of reads.
fn ends_early(alloc: Global, ending: &Ending) -> Result<bool, AllocError> {
    let file = bytes_of(alloc, ending.file)?;
    let mut folder = Untold::new(ending.found, &file, &file);
    let fault = fault_of(alloc, &mut folder, "a", 2);
    Ok(fault == Some(ending.fault) && folder.reads() == ending.reads)
}

#[test]
fn files_that_end_early_or_are_too_long(rt: HostRuntime) -> Result<(), Fail> {
    for ending in &ENDINGS {
        assert!(rt; ends_early(rt.alloc(), ending)?, "{} bytes", ending.found);
    }
    Ok(())
}
