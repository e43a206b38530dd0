//! Files whose first frames point before the stream, and which of their frames are lost. Worked out by hand: a
//! frame of 417 bytes adds 381 bytes to the main data, one like `SHORT` 11.

use super::shapes::surveyed;
use super::stretches::{Case, HEAD, SHORT, SHORT_LOUD, SHORT_OF_FOUR, Z};
use std::alloc::{AllocError, Global};
use std::process::Abort;
use std::test::Fail;
use sync_survey::Survey;
use test_files::files::Stretch::Filled;
use test_files::files::{Stretch, bytes_of};
use test_files::table;

/// Like `SHORT`, with main_data_begin 12.
const SHORT_SILENT_BACK: Stretch = Filled(b"\xff\xf3\x14\xc0\x0c", 0, 19);

/// A file without fault, and whether each of its frames is lost.
type Lost = Case<&'static [bool]>;

static CASES: [Lost; 11] = table! {
    Case { name, file, answer }
    ("a frame that begins the file", &[Stretch::Frame(81, 3200)], &[true])
    ("a silent one", &[Stretch::Frame(10, 0)], &[true])
    ("more bits than there is room for", &[Stretch::Frame(1, 4000)], &[true])
    ("up to the first area behind a silent frame", &[Z, Stretch::Frame(381, 8)], &[false, false])
    ("one byte further", &[Z, Stretch::Frame(382, 8)], &[false, true])
    ("up to the area of a head", &[HEAD, Stretch::Frame(381, 8)], &[false])
    ("one byte further than a head", &[HEAD, Stretch::Frame(382, 8)], &[true])
    ("behind several silent frames", &[SHORT, SHORT, SHORT_OF_FOUR], &[false, false, true])
    ("a silent frame that points too far is lost, and the stretch goes on",
        &[SHORT, SHORT_SILENT_BACK, SHORT_OF_FOUR, SHORT_LOUD, SHORT], &[false, true, true, false, false])
    ("a lost frame before one that isn't silent and points into its area",
        &[Stretch::Frame(10, 800), Stretch::Frame(381, 8)], &[true, false])
    ("frames behind a lost one that point no further than the stream",
        &[Stretch::Frame(500, 8), Z, Stretch::Frame(381, 8)], &[true, false, false])
};

/// Whether these frames are lost, and no others.
fn are_marked(survey: &Survey, lost: &[bool]) -> bool {
    let rows = survey.frames();
    rows.len() == lost.len() && rows.iter().zip(lost).all(|(row, lost)| row.lost() == *lost)
}

/// Whether the survey of the file marks these frames as lost.
fn are_lost(alloc: Global, case: &Lost) -> Result<bool, AllocError> {
    let file = bytes_of(alloc, case.file)?;
    match surveyed(alloc, &file, 100)? {
        Ok(survey) => Ok(are_marked(&survey, case.answer)),
        Err(_) => Ok(false),
    }
}

/// The name of the first case with other lost frames.
fn first_wrong(alloc: Global) -> Result<Option<&'static str>, AllocError> {
    for case in &CASES {
        if !are_lost(alloc, case)? {
            return Ok(Some(case.name));
        }
    }
    Ok(None)
}

#[test]
fn lost_frames(rt: HostRuntime) -> Result<(), Fail> {
    let wrong = first_wrong(rt.alloc())?.unwrap_or("");
    assert!(rt; wrong.is_empty(), "{wrong}");
    Ok(())
}
