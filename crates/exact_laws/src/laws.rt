//! Laws of exact pieces that are joined again. Each function does nothing: a proof that needs its law calls it.
ghost use Rattle.exact_laws.specs.ExactSeamLaws.{ExactSplitThenSeamlessJoin, ExactInSteps};

/// The pieces of an exact split, joined in order without seams, play exactly the recording's samples from the first place to
/// before the last, each at its own offset in its own frame. Each later piece follows the one before it; the stream is at most one
/// empty frame, and then the frames that `cut --exact` needs of the recording, each once; and the Info frame has their number,
/// delay and padding. It is the file that `cut --exact` writes, without its blocks after the frames, unless the first frame of the
/// first piece is a look-alike of a lead-in that the piece wasn't given.
pub fn exact_split_then_seamless_join()
    ensures { ExactSplitThenSeamlessJoin }
{}

/// The pieces of an exact split can be joined in two steps: first some of them from the first on, and then the resulting file
/// with the others. The result is the same file as in one step, where no frame of the file that was split is empty when its head
/// is set apart.
pub fn exact_in_steps()
    ensures { ExactInSteps }
{}
