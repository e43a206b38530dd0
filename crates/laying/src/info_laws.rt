//! Laws of the Info frame before chosen frames. Each function does nothing: a proof that needs its law
//! calls it.
ghost use Rattle.laying.specs.InfoLaws.{SlotsArePlanned};

/// The frames of parts of surveyed files, placed as planned, are in the slots of the plan, one for
/// each of its lead-ins and frames, so an Info frame for the plan is one for these frames.
pub fn slots_are_planned()
    ensures { SlotsArePlanned }
{}
