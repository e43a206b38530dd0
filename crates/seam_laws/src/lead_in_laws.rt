//! Laws of lead-ins. Each function does nothing: a proof that needs its law calls it.
ghost use Rattle.seam_laws.specs.LeadInLaws.{LedWhereNeeded, LeadInWhereWanted};

/// If the frames of a part have no layout without a lead-in, its plan is its led plan.
pub fn led_where_needed()
    ensures { LedWhereNeeded }
{}

/// The plan of one part whose frames keep their slots has no lead-in if they want nothing.
/// Otherwise it begins with their lead-in, in the slot of the header that `lead_in` returns.
pub fn lead_in_where_wanted()
    ensures { LeadInWhereWanted }
{}
