//! Laws of plans from a menu. Each function does nothing: a proof that needs its law calls it.
ghost use Rattle.rate_plan.specs.Laws.{LargestSlotFits, SlicesAreMenus, LeastMenuPlanIsThePlan};

/// Frames that have a layout in their own slots after a whole window all fit, if the menu has the
/// largest slot of all, as a menu of all slots from some bit rate on does.
pub fn largest_slot_fits()
    ensures { LargestSlotFits }
{}

/// The slots of a class from one on and before another are a menu; those up to the last include the
/// largest.
pub fn slices_are_menus()
    ensures { SlicesAreMenus }
{}

/// Frames have one plan from a menu, or one first unfit frame. The plan is the first of all lists
/// of slots from the menu, in the order of their areas, for which there is a layout, without a
/// lead-in or otherwise with one; a frame is unfit exactly if there is no such list.
pub fn least_menu_plan_is_the_plan()
    ensures { LeastMenuPlanIsThePlan }
{}
