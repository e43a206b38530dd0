//! Laws of the definitions that the contracts of `plan`, `wants` and `leaves` cite. Each function
//! does nothing: a proof that needs its law calls it.
ghost use Rattle.slot_plan.specs.Laws.{LeadInsComeFirst, PlansAreUnique, LeastPlanIsThePlan, LedPlanIsLeast, FitsBehindWhatIsLeft, LeavesGoOn, FitsWhereWanted};

/// If the frames of a part have no layout without a lead-in, its lead-in is the one with the
/// smallest area with which they have one. This is the first entry of the lexicographically least
/// list of these frames after one lead-in of any slot.
pub fn lead_ins_come_first()
    ensures { LeadInsComeFirst }
{}

/// Parts have at most one plan, if the areas among which each frame chooses ascend.
pub fn plans_are_unique()
    ensures { PlansAreUnique }
{}

/// Parts of one class, each with a layout in its own slots after a whole window of free bytes, have
/// one plan: the first of all lists of slots, in the order of their areas, for which there is a
/// layout, with the lead-ins that the parts have alone.
pub fn least_plan_is_the_plan()
    ensures { LeastPlanIsThePlan }
{}

/// A part of one class that has a layout in its own slots after a whole window of free bytes has
/// one led plan: the first of all lists of slots that begin with one lead-in, in the order of their
/// areas, for which there is a layout.
pub fn led_plan_is_least()
    ensures { LedPlanIsLeast }
{}

/// Frames and then others fit after some free bytes exactly if the first do and what the others
/// want is at most what the first leave. One number thus represents all frames before a seam.
pub fn fits_behind_what_is_left()
    ensures { FitsBehindWhatIsLeft }
{}

/// What frames and then others leave is what the others leave after what the first leave.
pub fn leaves_go_on()
    ensures { LeavesGoOn }
{}

/// Frames fit after exactly the numbers of bytes that are at least what they want.
pub fn fits_where_wanted()
    ensures { FitsWhereWanted }
{}
