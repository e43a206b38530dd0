//! Which steps a file accepts.
ghost use Rattle.gain_laws.specs.ExactSteps.{StepsAreExact};

/// A law and no work: for a well-formed file `gain` without a note refuses steps on both channels,
/// without wrap, with `GainRange` exactly if they aren't from minus the least gain that moves to
/// 255 less the greatest, and accepts them otherwise; likewise on one channel alone, if it may
/// change alone, with the gains of that channel. With a note it refuses no other steps with
/// `GainRange`; with wrap, or if no gain moves, it refuses none. A fade whose points all have such
/// steps, or with `--back` as many the other way, isn't refused with `GainRange`, and one of a
/// single point exactly if its steps aren't such. A proof that needs it calls this function.
pub fn steps_are_exact()
    ensures { StepsAreExact }
{}
