//! Frames that are lost when the head is set apart. All of it was worked out by hand: each frame has an area of 381 bytes.

use outside::MemFolder;
use std::alloc::{AllocError, Global};
use std::process::Abort;
use std::test::Fail;
use sync_survey::{Row, Survey, survey};
use test_files::files::Stretch::{Frame, Frames};
use test_files::files::{Stretch, bytes_of};
use test_files::frames::{HEAD, Z};
use test_files::table;

/// A file, and which of its frames are lost when the head is set apart.
struct Case {
    name: &'static str,
    file: &'static [Stretch],
    lost: &'static [bool],
}

/// Files in which no frame is lost by the standard.
static WITH_HEAD: [Case; 7] = table! {
    Case { name, file, lost }
    ("the first frame begins in the head", &[Frames(&[HEAD]), Frame(1, 2400)], &[true])
    ("all of it is in the head", &[Frames(&[HEAD]), Frame(200, 800), Frame(0, 800)], &[true, false])
    ("a silent frame before it", &[Frames(&[HEAD, Z]), Frame(382, 800)], &[false, true])
    ("just behind the head", &[Frames(&[HEAD, Z]), Frame(381, 800)], &[false, false])
    ("a silent frame itself", &[Frames(&[HEAD]), Frame(40, 0), Frame(0, 8)], &[true, false])
    ("a lost frame before it", &[Frames(&[HEAD]), Frame(200, 8), Frame(382, 8)], &[true, true])
    ("a frame with bits before it", &[Frames(&[HEAD]), Frame(0, 8), Frame(380, 8)], &[false, false])
};

/// The frames that are lost are also lost with their own areas alone.
static WITHOUT_HEAD: [Case; 3] = table! {
    Case { name, file, lost }
    ("the first frame", &[Frame(1, 2400), Frame(0, 8)], &[true, false])
    ("a silent frame before it", &[Frames(&[Z]), Frame(382, 800)], &[false, true])
    ("none", &[Frames(&[Z]), Frame(381, 800)], &[false, false])
};

/// The survey of the file, where there is one.
fn surveyed(alloc: Global, parts: &[Stretch]) -> Result<Option<Survey>, AllocError> {
    let file = bytes_of(alloc, parts)?;
    let mut folder = MemFolder::new(alloc);
    folder.put("song", &file)?;
    Ok(survey(alloc, &mut folder, "song", 10).ok())
}

/// Whether these frames are lost, and no others.
fn are_lost(rows: &[Row], lost: &[bool]) -> bool {
    let mut place = 0;
    for row in rows {
        if lost.get(place) != Some(&row.lost()) {
            return false;
        }
        place += 1;
    }
    place == lost.len()
}

fn none_is_lost(rows: &[Row]) -> bool {
    for row in rows {
        if row.lost() {
            return false;
        }
    }
    true
}

/// Whether each lost frame became an empty one, and each other one stays.
fn are_emptied(before: &[Row], after: &[Row]) -> bool {
    let mut place = 0;
    for row in before {
        let Some(now) = after.get(place) else {
            return false;
        };
        let extent = now.extent();
        let is_empty = extent.begin == 0 && extent.bits == 0 && !now.lost();
        let is_placed = now.offset() == row.offset() && now.header() == row.header();
        if !is_placed || if row.lost() { !is_empty } else { now != row } {
            return false;
        }
        place += 1;
    }
    place == after.len()
}

/// A copy of the frames.
fn rows_of(alloc: Global, survey: &Survey) -> Result<Vec<Row>, AllocError> {
    let mut rows = Vec::new(alloc);
    rows.extend_from_slice(survey.frames())?;
    Ok(rows)
}

fn is_set_apart(alloc: Global, case: &Case, by_standard: bool) -> Result<bool, AllocError> {
    let Some(mut survey) = surveyed(alloc, case.file)? else {
        return Ok(false);
    };
    let was = if by_standard {
        are_lost(survey.frames(), case.lost)
    } else {
        none_is_lost(survey.frames())
    };
    survey.head_apart();
    let is = are_lost(survey.frames(), case.lost);
    let marked = rows_of(alloc, &survey)?;
    survey.empty_lost();
    Ok(was && is && are_emptied(&marked, survey.frames()))
}

#[test]
fn frames_that_begin_in_the_head(rt: HostRuntime) -> Result<(), Fail> {
    for case in &WITH_HEAD {
        let is = is_set_apart(rt.alloc(), case, false)?;
        assert!(rt; is, "{}", case.name);
    }
    Ok(())
}

#[test]
fn a_file_without_a_head(rt: HostRuntime) -> Result<(), Fail> {
    for case in &WITHOUT_HEAD {
        let is = is_set_apart(rt.alloc(), case, true)?;
        assert!(rt; is, "{}", case.name);
    }
    Ok(())
}

/// In the survey of a file without fault, no frame after one that is neither silent nor lost begins in the head. With such a
/// one in place of the first frame, the next frame, which points into the head, isn't lost.
#[test]
fn a_frame_with_bits_stops_it(rt: HostRuntime) -> Result<(), Fail> {
    let mut survey = surveyed(rt.alloc(), WITH_HEAD[2].file)?.ok_or("no survey")?;
    let other = surveyed(rt.alloc(), WITH_HEAD[6].file)?.ok_or("no survey")?;
    if let (Some(first), Some(with_bits)) = (survey.frames.get_mut(0), other.frames().first()) {
        *first = *with_bits;
    }
    survey.head_apart();
    assert!(rt; none_is_lost(survey.frames()));
    Ok(())
}
