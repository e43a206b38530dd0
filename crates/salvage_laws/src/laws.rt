//! Laws of what is read of a damaged file. Each function does nothing: a proof that needs its law calls it.
ghost use Rattle.salvage_laws.specs.Laws.{SalvageKeepsStreams, SalvageTellsStreams};

/// Everything in the survey of a file without fault is read, and nothing is missing except the junk
/// before the first frame, so the file's stream is kept.
pub fn salvage_keeps_streams()
    ensures { SalvageKeepsStreams }
{}

/// The stream of the survey of what is read is the stream of the islands of frames between gaps: each
/// sound frame as it is, and every other one as an empty frame.
pub fn salvage_tells_streams()
    ensures { SalvageTellsStreams }
{}
