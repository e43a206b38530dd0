//! The law of the slots in which frames stay. The function does nothing: a proof that needs the law calls it.
ghost use Rattle.remove_laws.specs.SlotLaws.{FramesKeepTheirSlots};

/// Where stretches are taken out, each frame that stays keeps its slot, except the first frame of a later part, which has its own
/// or one with a greater area. A lead-in stands only before the first frame of a part, and at most one does. It stands before a
/// later part only if this part doesn't fit behind what is before it, whichever of these slots its first frame has.
pub fn frames_keep_their_slots()
    ensures { FramesKeepTheirSlots }
{}
