//! Laws of the samples that exact pieces play. Each function does nothing: a proof that needs its law calls it.
ghost use Rattle.exact_laws.specs.Recording.{PiecesAreTheRecording};
ghost use Rattle.exact_laws.specs.SampleLaws.{PiecesPlayTheirSamples};

/// The Info frame of an exact piece gives the number of frames of the piece, and a delay and a
/// padding with which players play as many samples as were chosen; and each sample is at the same
/// offset of the same frame as in the input.
pub fn pieces_play_their_samples()
    ensures { PiecesPlayTheirSamples }
{}

/// The pieces of `split_exact`, played in order, are the samples of the input from the first place
/// to the last, each once: each piece plays the samples from its place up to, but not including,
/// the next, each at the same offset of the same frame as in the input.
pub fn pieces_are_the_recording()
    ensures { PiecesAreTheRecording }
{}
