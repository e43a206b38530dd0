//! Laws of stretches that are taken out. Each function does nothing: a proof that needs its law calls it.
ghost use Rattle.remove_laws.specs.StretchLaws.{FramesInNoStretchStay, TouchingStretchesAreOne};

/// Two stretches that touch are one. If the frame after the first is the first frame of the second, `remove` makes the file that
/// it makes of one stretch in their place, from the beginning of the first to the end of the second, whatever the other
/// stretches are; and if it refuses the one list, it refuses the other for the same reason.
pub fn touching_stretches_are_one()
    ensures { TouchingStretchesAreOne }
{}

/// If stretches are accepted, each frame of the file is in one of the parts that stay exactly if it is in no stretch. Each part
/// has a frame, the parts are in order, and the frame after a part is in a stretch, so that no two parts touch.
pub fn frames_in_no_stretch_stay()
    ensures { FramesInNoStretchStay }
{}
