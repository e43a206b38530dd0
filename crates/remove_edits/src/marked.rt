//! The lead-ins among the places of a plan.
ghost use Rattle.std.specs.Prelude.{◌≡◌, ◌<◌, ◌≤◌, ◌-◌, ◌++◌, drop, length, take, All, IfOk};
ghost use Rattle.slot_plan.specs.Plans.{entries};
ghost use Rattle.remove_edits.specs.Ready.{with_lead_ins};

use slot_plan::{Placed, Plan};
use std::alloc::{AllocError, Global};

/// Makes the places with these numbers, counted from 0, those of lead-ins.
fn mark(placed: &mut [Placed], lead_ins: &[u32])
    requires { All (λ at. at < length placed.old) lead_ins.now }
    ensures { placed.new ≡ with_lead_ins lead_ins.now placed.old }
{
    for at in lead_ins {
        let place = &mut placed[*at as usize];
        place.lead_in = true;
    }
}

/// The plan with the places of these numbers, counted from the first behind the first `before`, as
/// those of lead-ins.
///
/// # Errors
/// If memory runs out. It takes none if there are no lead-ins.
pub(crate) fn marked(
    alloc: Global,
    plan: Plan,
    before: usize,
    lead_ins: &[u32],
) -> Result<Plan, AllocError>
    requires before { before ≤ length (entries plan) }
    requires within { All (λ at. at < length (entries plan) - before) lead_ins.now }
    ensures { IfOk result (λ marked. entries marked ≡ take before (entries plan)
        ++ with_lead_ins lead_ins.now (drop before (entries plan))) }
{
    if lead_ins.is_empty() {
        return Ok(plan);
    }
    let mut placed = Vec::new(alloc);
    placed.extend_from_slice(plan.placed())?;
    mark(&mut placed.as_mut_slice()[before..], lead_ins);
    Ok(Plan::from_placed(placed))
}
