//! Laws of any files that are joined without seams. Each function does nothing: a proof that needs its law calls it.
ghost use Rattle.seam_laws.specs.JoinLaws.{LeftOutIsEmpty, JoinsKeepTheirEnds};

/// What a join without seams leaves out of an input that doesn't follow the one before it is at most one frame, the first of the
/// input's own stream, and that frame is empty: all bits of its side information are 0, and it has no main data. All other frames
/// of the input are written. Of an input that is told as whole nothing is left out; of one whose lead-in is told as left out that
/// one frame is; and of one that follows as many frames are left out as is told.
pub fn left_out_is_empty()
    ensures { LeftOutIsEmpty }
{}

/// Where delay and padding are written, a join without seams, as its file is read, begins to play at the position where its first
/// input does, and ends where its last input does, whichever inputs these are. If the last input's head doesn't count, that is
/// the end of its last frame. The end is there if the last input doesn't end before it begins to play.
pub fn joins_keep_their_ends()
    ensures { JoinsKeepTheirEnds }
{}
