//! Laws of the best plan. Each function does nothing: a proof that needs its law calls it.
ghost use Rattle.best_plan.specs.Laws.{BestIsShortest, BestExists, BestPlanIsCheapest};

/// The best plan of a part has a lead-in exactly if its plan has one, and its sum of areas is never
/// greater.
pub fn best_is_shortest()
    ensures { BestIsShortest }
{}

/// If a part has a plan, it has a best plan.
pub fn best_exists()
    ensures { BestExists }
{}

/// The best plan of a part whose frames choose among ascending areas is the value of a function: of
/// all lists of slots whose main data have room, the one with the least sum of areas, and of
/// several the lexicographically least.
pub fn best_plan_is_cheapest()
    ensures { BestPlanIsCheapest }
{}
