//! Laws of frames that are written. Each function does nothing: a proof that needs its law calls
//! it.
ghost use Rattle.frame_writer.specs.Laws.{LaidSteps, FewFramesWait};

/// What was taken of the frames that were given, and then what waits, are the bytes of all of them:
/// each frame's header, check word and side information, and then its area, with all main data laid
/// into the areas.
pub fn laid_steps()
    ensures { LaidSteps }
{}

/// If later main data can reach the area of the first frame that waits, at most 255 frames wait,
/// and at most 6,751 bytes of areas, in every class of MPEG-1, MPEG-2 and MPEG-2.5.
pub fn few_frames_wait()
    ensures { FewFramesWait }
{}
