//! Laws of files that are joined without seams. Each function does nothing: a proof that needs its law calls it.
ghost use Rattle.seam_laws.specs.SeamlessLaws.{FollowingSamplesStay, SplitThenSeamlessJoin, StepsJoinTheSame};

/// Where an input follows the one before it, its first played sample is right after the last played one of that input, and
/// each of its samples is at its own offset in a frame that is the same as its own but for gains, bit rate and padding.
pub fn following_samples()
    ensures { FollowingSamplesStay }
{}

/// The pieces of a split at positions, joined in order without seams, are the file that `cut` writes from the first position to
/// the last, without its blocks after the frames; their stream is thus at most one lead-in, and then the frames between these
/// positions. This holds unless the first frame of a piece is a look-alike of a lead-in that the piece wasn't given. In any case
/// no frame is missing that isn't empty, and none comes twice.
pub fn split_then_seamless_join()
    ensures { SplitThenSeamlessJoin }
{}

/// The pieces of a split at positions can be joined in two steps: first some of them from the first on, and then the resulting
/// file with the others. The result is the same file as in one step, where no frame of the file that was split is empty.
pub fn in_steps()
    ensures { StepsJoinTheSame }
{}
