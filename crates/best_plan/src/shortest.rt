//! The shortest packing.
ghost use Rattle.std.specs.Prelude.{◌≡◌, ◌+◌, ◌≤◌, length, slice_index, map, IfOk};
ghost use Rattle.frame_header.specs.Tables.{window_of};
ghost use Rattle.slot_plan.specs.Layouts.{HasLayout};
ghost use Rattle.slot_plan.specs.Parts.{AreNeedsOfOneClass, window_in, own_frame};
ghost use Rattle.slot_plan.specs.Plans.{entries};
ghost use Rattle.best_plan.specs.Best.{IsBestPlan};
ghost use Rattle.best_plan.specs.Table.{IsLeadInOfSums};

use crate::choice::{NOTHING, areas_among, best_choice, bounds_of};
use crate::table::table_of;
use crate::walk::walk;
use frame_header::Class;
use slot_plan::{Lengths, Need, Placed, Plan, Policy, Room, free_behind};
use std::alloc::{AllocError, Global};

/// The lead-in with which all frames have the fewest bytes. `sums` has the least sums of the frames
/// after it.
fn lead_in(class: Class, window: u32, sums: &[u32]) -> Placed
    requires window { window ≡ window_of class.version }
    requires sums { length sums.now ≡ window + 1 }
    requires some { slice_index sums.now window ≤ 288200000 }
    ensures { IsLeadInOfSums window class sums.now result }
{
    // The largest slot has room for a whole window.
    let room = class.window();
    let slots = class.slots();
    let lengths = Lengths::new(class);
    let areas = areas_among(&lengths, false, slots.as_slice());
    let known = bounds_of(sums);
    let choice = best_choice(room, 0, 0, areas.as_slice(), sums, known);
    Placed {
        lead_in: true,
        slot: slots.as_slice()[choice.place as usize],
        begin: 0,
    }
}

/// The shortest plan of one part: of the lists of areas that have a layout, the one with the least
/// sum, and of several the lexicographically least; after a lead-in of any slot if the frames have
/// no layout without one. Main data begin as early as they may (ISO/IEC 11172-3, 2.4.2.7). There
/// are 1 to 200,000 frames, all of one class, which have a layout in their own slots after a whole
/// window of free bytes.
///
/// # Errors
/// If memory runs out.
pub fn best<P: Policy>(alloc: Global, needs: &[Need], policy: &P) -> Result<Plan, AllocError>
    requires class { AreNeedsOfOneClass needs.now }
    requires some { 1 ≤ length needs.now }
    requires few { length needs.now ≤ 200000 }
    requires feasible { HasLayout (window_in needs.now) (window_in needs.now)
        (map own_frame needs.now) }
    ensures { IfOk result (λ p. IsBestPlan (window_in needs.now) (P.choices_of policy.now) needs.now
        (entries p)) }
{
    let class = needs[0].header.class();
    let window = class.window();
    let lengths = Lengths::new(class);
    // There is at most one lead-in.
    let mut placed = Vec::with_capacity(alloc, needs.len() + 1)?;
    let table = table_of(alloc, window, needs, policy, &lengths)?;
    if table.sums[0] < NOTHING {
        let room = Room { window, free: 0 };
        walk(room, needs, policy, &lengths, table.places, &mut placed)?;
        return Ok(Plan::from_placed(placed));
    }
    let frame = lead_in(class, window, table.sums.as_slice());
    let area = class.area_of(frame.slot, false);
    placed.push(frame)?;
    let free = free_behind(window, 0, 0, area);
    let room = Room { window, free };
    walk(room, needs, policy, &lengths, table.places, &mut placed)?;
    Ok(Plan::from_placed(placed))
}
