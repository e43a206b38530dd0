//! How many bytes must be free before and after each frame of a part, computed from the last frame
//! back to the first.
ghost use Rattle.std.specs.Prelude.{◌≡◌, ◌+◌, ◌-◌, IfOk, Contains};
ghost use Rattle.frame_header.specs.Tables.{class_of};
ghost use Rattle.slot_plan.specs.Parts.{need_item, open_frame};
ghost use Rattle.slot_plan.specs.Reserve.{greatest_number, AreReserves, IsPlaceablePart};
ghost use Rattle.slot_plan.specs.SlotTables.{IsTableForNeeds, IsClassTable};

use crate::needs::Need;
use crate::offer::Offer;
use crate::table::SlotTable;
use std::alloc::{AllocError, Global};

/// How many bytes must be free.
#[derive(Drop)]
pub(crate) struct Reserves {
    /// After each frame, the last frame's first.
    pub(crate) behind: Vec<u16>,
    /// Before the first frame.
    pub(crate) before: u16,
}

/// How many bytes must be free before a frame, if `behind` bytes must be free after it.
fn needed_before<O: Offer>(need: &Need, behind: u16, offer: &O, table: &SlotTable) -> u64
    requires table { IsClassTable (class_of need.now.header) (O.lead_slots_of offer.now) table.now }
    ensures needed { result ≡ (need.now.bytes + behind) - greatest_number
        (open_frame (need_item (O.slots_of offer.now) need.now)).areas }
    ensures has { Contains (open_frame (need_item (O.slots_of offer.now) need.now)).areas
        (O.some_area_of offer.now need.now.header) }
{
    let largest = offer.largest_area_for(&need.header, table);
    (u64::from(need.bytes) + u64::from(behind)).saturating_sub(largest)
}

/// What each frame of the part needs after it, and what the first frame needs before it.
///
/// # Errors
/// If memory runs out.
pub(crate) fn reserves_of<O: Offer>(
    alloc: Global,
    window: u32,
    part: &[Need],
    offer: &O,
    table: &SlotTable,
) -> Result<Reserves, AllocError>
    requires table { IsTableForNeeds (O.lead_slots_of offer.now) part.now table.now }
    requires part { IsPlaceablePart window table.now.lengths (O.lead_slots_of offer.now)
        (O.some_area_of offer.now) part.now }
    ensures { IfOk result (λ r. AreReserves window (O.slots_of offer.now) (O.some_area_of offer.now)
        part.now r) }
{
    let mut behind = Vec::with_capacity(alloc, part.len())?;
    let mut before: u16 = 0;
    for i in (0..part.len()).rev() {
        behind.push_reserved(before);
        before = needed_before(&part[i], before, offer, table) as u16;
    }
    Ok(Reserves { behind, before })
}
