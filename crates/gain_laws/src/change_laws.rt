//! Laws of the definitions that the contracts cite. Each function does nothing: a proof that needs its law calls it.
ghost use Rattle.gain_laws.specs.Kept.{ChangesKeepAll};
ghost use Rattle.gain_laws.specs.StepLaws.{GainsTakeSteps};

/// What a change of gains makes of a file differs from it only in gains, in check words, in the tag
/// and in junk that is left out.
pub fn changes_keep_all()
    ensures { ChangesKeepAll }
{}

/// Moved without wrap by the same steps on both channels, no gain of frames leaves the range from 0
/// to 255 exactly if the steps are from minus the least moving gain to 255 minus the greatest. On
/// one channel alone this is true of the gains of that channel. If each frame has steps of its own,
/// and all of them are in that range, no gain leaves 0 to 255.
pub fn gains_take_steps()
    ensures { GainsTakeSteps }
{}
