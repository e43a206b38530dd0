//! Laws of streams that are made from a seed and packed. Each function does nothing: a proof that needs its law calls it.
ghost use Rattle.drill.specs.Laws.{DrillsArePacked, DrillsHaveNoLeadIn};

/// Whatever the seed, the packing of its stream of 1 to 20,000 frames is never refused: the packed
/// file is well-formed, and its stream is the frames that were drawn, without a lead-in.
pub fn drills_are_packed()
    ensures { DrillsArePacked }
{}

/// The line always says `0 lead-ins`.
pub fn drills_have_no_lead_in()
    ensures { DrillsHaveNoLeadIn }
{}
