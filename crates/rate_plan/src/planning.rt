//! The plan from a menu.
ghost use Rattle.std.specs.Prelude.{◌≤◌, true, length, IfOk};
ghost use Rattle.frame_header.specs.Tables.{window_of};
ghost use Rattle.frame_header.specs.Limits.{most_frames};
ghost use Rattle.slot_plan.specs.Parts.{AreNeedsOfOneClass};
ghost use Rattle.slot_plan.specs.Plans.{entries};
ghost use Rattle.rate_plan.specs.LeastMenuPlan.{IsMenuAnswer};
ghost use Rattle.rate_plan.specs.Menus.{IsMenuOf, ArePlannableNeeds, IsMenu, CanBeLaidFromMenu, IsMenuPlan};

use crate::fault::RateFault;
use crate::menu::Menu;
use crate::unfit::first_unfit;
use frame_header::{Class, Slot};
use slot_plan::{Need, Plan, Room, SlotTable, place_part};
use std::alloc::{AllocError, Global};

/// The plan of frames that have a layout after one lead-in.
///
/// # Errors
/// If memory runs out.
fn fit_plan(alloc: Global, class: Class, needs: &[Need], menu: &[Slot]) -> Result<Plan, AllocError>
    requires needs { ArePlannableNeeds class needs.now }
    requires menu { IsMenuOf class menu.now }
    requires fits { CanBeLaidFromMenu (window_of class.version) true menu.now needs.now }
    ensures { IfOk result (λ plan.
        IsMenuPlan (window_of class.version) menu.now needs.now (entries plan)) }
{
    let table = SlotTable::new(alloc, class, menu)?;
    // There is at most one lead-in.
    let mut placed = Vec::with_capacity(alloc, needs.len() + 1)?;
    let room = Room {
        window: class.window(),
        free: 0,
    };
    let offer = Menu { slots: menu };
    place_part(alloc, room, needs, &offer, &table, &mut placed)?;
    Ok(Plan::from_placed(placed))
}

/// The plan of 1 to 2,900,000 frames of one class: the lexicographically least list of areas that
/// has a layout, with all slots from the menu, after one lead-in from the menu if no list has a
/// layout without one. Main data begin as early as they may (ISO/IEC 11172-3, 2.4.2.7). The menu
/// has at least one slot, and its areas ascend.
///
/// # Errors
/// `Unfit` exactly if no list has a layout, even after a lead-in, with the first frame up to which
/// none has. `Memory` if memory runs out.
pub fn rate_plan(alloc: Global, needs: &[Need], menu: &[Slot]) -> Result<Plan, RateFault>
    requires class { AreNeedsOfOneClass needs.now }
    requires some { 1 ≤ length needs.now }
    requires few { length needs.now ≤ most_frames }
    requires slots { 1 ≤ length menu.now }
    requires ascending { IsMenu menu.now needs.now }
    ensures { IsMenuAnswer menu.now needs.now result }
{
    let class = needs[0].header.class();
    if let Some(i) = first_unfit(class, needs, menu) {
        return Err(RateFault::Unfit(i));
    }
    Ok(fit_plan(alloc, class, needs, menu)?)
}
