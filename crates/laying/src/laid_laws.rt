//! Laws of files into whose frames all main data were laid. Each function does nothing: a proof that needs
//! its law calls it.
ghost use Rattle.laying.specs.LaidLaws.{LaidStream, LaidSurvey, SurveyedBlocks, LaidFramesStay};

/// A file of blocks, an Info frame, at least one frame and more blocks, with all main data laid
/// into the areas of the frames, is well-formed, and its stream is the given frames with the given
/// main data.
pub fn laid_stream()
    ensures { LaidStream }
{}

/// A survey of such a file that allows at least as many frames as it has finds no fault. It finds
/// the Info frame as the head, after the blocks and without junk, and the frames and blocks where
/// they were put; none of the frames is lost.
pub fn laid_survey()
    ensures { LaidSurvey }
{}

/// The bytes of each block that a survey lists for a file without fault are a block wherever they
/// are put, so they may be before and after the frames of such a file.
pub fn surveyed_blocks()
    ensures { SurveyedBlocks }
{}

/// No frame of such a file is lost, not even when the head is set apart: all main data begin after
/// the area of the Info frame.
pub fn laid_frames_stay()
    ensures { LaidFramesStay }
{}
