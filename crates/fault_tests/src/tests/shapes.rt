//! What a survey finds in a file.

use outside::MemFolder;
use std::alloc::{AllocError, Global};
use sync_survey::{Piece, Survey, SurveyFault, survey};

/// What has to be found in a file.
#[derive(Drop)]
pub struct Shape {
    pub front_end: u64,
    pub first: u64,
    pub text_at: Option<u32>,
    /// The offsets of the numbered frames.
    pub frames: &'static [u64],
    pub blocks: &'static [Piece],
}

/// The offset of the text of the survey's head.
fn text_offset(survey: &Survey) -> Option<u32> {
    match survey.head() {
        Some(head) => Some(head.text_at),
        None => None,
    }
}

/// Whether these are the offsets of the numbered frames.
fn has_frames(survey: &Survey, offsets: &[u64]) -> bool {
    let rows = survey.frames();
    rows.len() == offsets.len()
        && rows
            .iter()
            .zip(offsets)
            .all(|(row, offset)| u64::from(row.offset()) == *offset)
}

/// Whether the survey has this start.
fn has_start(survey: &Survey, shape: &Shape) -> bool {
    let junk = shape.first.saturating_sub(shape.front_end);
    survey.junk() == (shape.front_end, junk)
        && survey.first() == shape.first
        && text_offset(survey) == shape.text_at
}

fn has_shape(survey: &Survey, shape: &Shape) -> bool {
    has_start(survey, shape) && has_frames(survey, shape.frames) && survey.blocks() == shape.blocks
}

/// The survey of a file, with `allowed` frames allowed.
pub fn surveyed(
    alloc: Global,
    file: &[u8],
    allowed: u32,
) -> Result<Result<Survey, SurveyFault>, AllocError> {
    let mut folder = MemFolder::new(alloc);
    folder.put("a", file)?;
    Ok(survey(alloc, &mut folder, "a", allowed))
}

/// Whether the survey of a file finds this.
pub fn is_surveyed(
    alloc: Global,
    file: &[u8],
    answer: &Result<Shape, SurveyFault>,
) -> Result<bool, AllocError> {
    Ok(match (surveyed(alloc, file, 1000)?, answer) {
        (Ok(survey), Ok(shape)) => has_shape(&survey, shape),
        (Err(found), Err(fault)) => found == *fault,
        _ => false,
    })
}

/// The fault that the survey of a file finds, with `allowed` frames allowed, where there is one.
pub fn survey_fault(
    alloc: Global,
    file: &[u8],
    allowed: u32,
) -> Result<Option<SurveyFault>, AllocError> {
    match surveyed(alloc, file, allowed)? {
        Ok(_) => Ok(None),
        Err(fault) => Ok(Some(fault)),
    }
}
