//! The same sheet undoes a fade, and a fade changes nothing but gains.
ghost use Rattle.gain_laws.specs.FadeKept.{FadeKeepsAll};
ghost use Rattle.gain_laws.specs.TakenBack.{FadeGivesBack, FadeIsTakenBack};

/// A law and no work: after a fade, the fade the other way with the same sheet is accepted. It
/// gives the file from before the first, byte for byte, except its junk, and the stream comes back
/// in every case. Once `fade IN OUT SHEET` was done, `fade --back OUT LAST SHEET` is accepted, if
/// LAST is neither OUT nor SHEET, and writes IN without its junk; likewise if `--back` came first.
/// A proof that needs it calls this function.
pub fn fade_gives_back()
    ensures bytes { FadeGivesBack }
    ensures command { FadeIsTakenBack }
{}

/// A law and no work: the output of a fade differs from its input in gains, check words of
/// protected frames and junk that is left out, and in nothing else. A proof that needs it calls
/// this function.
pub fn fade_keeps_all()
    ensures { FadeKeepsAll }
{}
