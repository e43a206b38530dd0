//! The plan of several parts.
ghost use Rattle.std.specs.Prelude.{◌≡◌, ◌<◌, ◌≤◌, ◌+◌, [], ◌∷◌, length, slice_index, IfOk};
ghost use Rattle.frame_header.specs.Limits.{most_frames};
ghost use Rattle.slot_plan.specs.Parts.{CanBePlanned};
ghost use Rattle.slot_plan.specs.Plans.{entries};
ghost use Rattle.slot_plan.specs.Laws.{IsPlanAnswer, IsLedPlanAnswer};

use crate::needs::{Need, Plan};
use crate::placing::{Room, place_led, place_part};
use crate::policy::Policy;
use crate::table::SlotTable;
use std::alloc::{AllocError, Global};

/// Where the part at place `at` ends: where the next part begins, or after the last of `needs`.
pub fn end_of(needs: &[Need], parts: &[u32], at: usize) -> usize
    requires { at < length parts.now }
    ensures next { at + 1 < length parts.now → result ≡ slice_index parts.now (at + 1) }
    ensures last { length parts.now ≤ at + 1 → result ≡ length needs.now }
{
    if at + 1 < parts.len() {
        parts[at + 1] as usize
    } else {
        needs.len()
    }
}

/// The plan of 1 to 64 parts: the lexicographically least list of areas that has a layout, with the
/// lead-ins that the parts have alone. A part has none if its frames have a layout without one,
/// otherwise the one with the smallest area with which they have one. Main data begin as early as
/// they may (ISO/IEC 11172-3, 2.4.2.7).
///
/// `needs` has at most 2,900,000 frames, all of one class. `parts` has the place in it of each
/// part's first frame: the first is 0, and each is greater than the one before. Each part has a
/// layout in its own slots after a whole window of free bytes.
///
/// # Errors
/// If memory runs out.
pub fn plan<P: Policy>(
    alloc: Global,
    needs: &[Need],
    parts: &[u32],
    policy: &P,
) -> Result<Plan, AllocError>
    requires planned { CanBePlanned needs.now parts.now }
    requires needs { length needs.now ≤ most_frames }
    requires few { length parts.now ≤ 64 }
    ensures { IfOk result (λ p. IsPlanAnswer (P.choices_of policy.now) needs.now parts.now
        (entries p)) }
{
    let class = needs[0].header.class();
    let window = class.window();
    let table = SlotTable::of_class(alloc, class)?;
    // Each part has at most one lead-in.
    let mut placed = Vec::with_capacity(alloc, needs.len() + parts.len())?;
    let mut free = 0;
    for (at, from) in parts.iter().enumerate() {
        let part = &needs[*from as usize..end_of(needs, parts, at)];
        let room = Room { window, free };
        free = place_part(alloc, room, part, policy, &table, &mut placed)?;
    }
    Ok(Plan { placed })
}

/// The plan of one part that begins with a lead-in, even if its frames have a layout without one:
/// of all lists with one lead-in, which may have any slot, the lexicographically least list of
/// areas that has a layout. Main data begin as early as they may (ISO/IEC 11172-3, 2.4.2.7).
///
/// `needs` is as for `plan` with one part: 1 to 2,900,000 frames, all of one class, with a layout
/// in their own slots after a whole window of free bytes.
///
/// # Errors
/// If memory runs out.
pub fn plan_led<P: Policy>(alloc: Global, needs: &[Need], policy: &P) -> Result<Plan, AllocError>
    requires planned { CanBePlanned needs.now (0 ∷ []) }
    requires needs { length needs.now ≤ most_frames }
    ensures { IfOk result (λ p. IsLedPlanAnswer (P.choices_of policy.now) needs.now (entries p)) }
{
    let class = needs[0].header.class();
    let window = class.window();
    let table = SlotTable::of_class(alloc, class)?;
    let mut placed = Vec::with_capacity(alloc, needs.len() + 1)?;
    let room = Room { window, free: 0 };
    place_led(alloc, room, needs, policy, &table, &mut placed)?;
    Ok(Plan { placed })
}
