//! Laws of spans that are joined. Each function does nothing: a proof that needs its law calls it.
ghost use Rattle.exact_laws.specs.SpanLaws.{SpansAreOneSplice};

/// Inputs that are spans of one recording, each playing from where the one before it ends, follow
/// each other, and are joined to the frames from the first of the first span to the last of the
/// last, each once. Before these are the first input's lead-ins.
pub fn spans_are_one_splice()
    ensures { SpansAreOneSplice }
{}
