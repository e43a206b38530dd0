//! Gives each frame of a part, from first to last, the slot with the smallest area that leaves what
//! is needed after it.
ghost use Rattle.std.specs.Prelude.{◌+◌, ◌-◌, ◌≤◌, false, [], map, IfOk};
ghost use Rattle.frame_header.specs.Tables.{class_of};
ghost use Rattle.slot_plan.specs.Parts.{need_item, open_frame};
ghost use Rattle.slot_plan.specs.Reserve.{greatest_number, open_frames, AreReserves, CanBePlaced, CanPlacePart, IsLeastPlacement, PlacesLedPart, PlacesMore, PlacesPart};
ghost use Rattle.slot_plan.specs.SlotTables.{IsTableForNeeds, IsClassTable};
ghost use Rattle.frame_header.specs.Limits.{most_back};

use crate::needs::{Need, Placed};
use crate::offer::Offer;
use crate::reserves::{Reserves, reserves_of};
use crate::slots::free_behind;
use crate::table::SlotTable;
use std::alloc::{AllocError, Global};

/// The frame in the slot with the smallest area that leaves `behind` bytes free after it, if `free`
/// bytes are free before it.
fn place_frame<O: Offer>(
    need: &Need,
    behind: u16,
    free: u32,
    offer: &O,
    table: &SlotTable,
) -> Placed
    requires table { IsClassTable (class_of need.now.header) (O.lead_slots_of offer.now) table.now }
    requires enough { (need.now.bytes + behind) - greatest_number
        (open_frame (need_item (O.slots_of offer.now) need.now)).areas ≤ free }
    requires free { free ≤ most_back }
    ensures { IsLeastPlacement false free ((need.now.bytes + behind) - free)
        (class_of need.now.header)
        need.now.header.protected (O.slots_of offer.now need.now.header) result }
{
    let wanted = (u64::from(need.bytes) + u64::from(behind)).saturating_sub(u64::from(free));
    Placed {
        lead_in: false,
        slot: offer.least_slot_for(&need.header, wanted, table),
        begin: free as u16,
    }
}

/// The room before a frame: the bytes that are free, and the window, which they don't exceed.
#[derive(Clone, Copy)]
pub struct Room {
    pub window: u32,
    pub free: u32,
}

/// Places the frames of a part, and returns how many bytes are free after them. `behind` has what
/// is needed after each frame, the last frame's first.
///
/// # Errors
/// If memory runs out.
fn place_frames<O: Offer>(
    room: Room,
    part: &[Need],
    offer: &O,
    table: &SlotTable,
    behind: Vec<u16>,
    placed: &mut Vec<Placed>,
) -> Result<u32, AllocError>
    requires table { IsTableForNeeds (O.lead_slots_of offer.now) part.now table.now }
    requires window { room.window ≤ most_back }
    requires ready { CanBePlaced room.window room.free (open_frames (O.slots_of offer.now) part.now)
        behind.items }
    ensures within { IfOk result (λ after. after ≤ room.window) }
    ensures placed { IfOk result (λ after. PlacesMore room.window room.free after
        (map (need_item (O.slots_of offer.now)) part.now) [] placed.old.items placed.new.items) }
{
    let window = room.window;
    let mut behind = behind;
    let mut free = room.free;
    placed.reserve(part.len())?;
    for need in part {
        let wanted = behind.pop().unwrap_or(0);
        let frame = place_frame(need, wanted, free, offer, table);
        let area = table.lengths.area_of(frame.slot, need.header.protected);
        free = free_behind(window, free, need.bytes, area);
        placed.push_reserved(frame);
    }
    Ok(free)
}

/// Places the frames of a part after the smallest lead-in that has what they need. There is one.
///
/// # Errors
/// If memory runs out.
fn place_behind_lead_in<O: Offer>(
    room: Room,
    part: &[Need],
    offer: &O,
    table: &SlotTable,
    reserves: Reserves,
    placed: &mut Vec<Placed>,
) -> Result<u32, AllocError>
    requires ready { CanPlacePart room (O.lead_slots_of offer.now) (O.some_area_of offer.now)
        part.now table.now }
    requires reserves { AreReserves room.window (O.slots_of offer.now) (O.some_area_of offer.now)
        part.now reserves }
    ensures within { IfOk result (λ after. after ≤ room.window) }
    ensures placed { IfOk result (λ after. PlacesLedPart room.window (O.lead_slots_of offer.now)
        (O.slots_of offer.now) part.now room.free after placed.old.items placed.new.items) }
{
    let window = room.window;
    let slot = table.least_slot(false, u64::from(reserves.before));
    placed.push(Placed {
        lead_in: true,
        slot,
        begin: room.free as u16,
    })?;
    let area = table.lengths.area_of(slot, false);
    let free = free_behind(window, room.free, 0, area);
    let room = Room { window, free };
    place_frames(room, part, offer, table, reserves.behind, placed)
}

/// Places the frames of a part after the smallest lead-in with which they have a layout, even if
/// they have one without it, and returns how many bytes are free after them. `room` is what is free
/// before the part. The table has the slots of lead-ins.
///
/// # Errors
/// If memory runs out.
pub(crate) fn place_led<O: Offer>(
    alloc: Global,
    room: Room,
    part: &[Need],
    offer: &O,
    table: &SlotTable,
    placed: &mut Vec<Placed>,
) -> Result<u32, AllocError>
    requires { CanPlacePart room (O.lead_slots_of offer.now) (O.some_area_of offer.now)
        part.now table.now }
    ensures within { IfOk result (λ after. after ≤ room.window) }
    ensures placed { IfOk result (λ after. PlacesLedPart room.window (O.lead_slots_of offer.now)
        (O.slots_of offer.now) part.now room.free after placed.old.items placed.new.items) }
{
    let reserves = reserves_of(alloc, room.window, part, offer, table)?;
    place_behind_lead_in(room, part, offer, table, reserves, placed)
}

/// Places the frames of a part, after the smallest lead-in with which they have a layout if they
/// have none without one, and returns how many bytes are free after them. `room` is what is free
/// before the part. The table has the slots of lead-ins.
///
/// # Errors
/// If memory runs out.
pub fn place_part<O: Offer>(
    alloc: Global,
    room: Room,
    part: &[Need],
    offer: &O,
    table: &SlotTable,
    placed: &mut Vec<Placed>,
) -> Result<u32, AllocError>
    requires { CanPlacePart room (O.lead_slots_of offer.now) (O.some_area_of offer.now)
        part.now table.now }
    ensures within { IfOk result (λ after. after ≤ room.window) }
    ensures placed { IfOk result (λ after. PlacesPart room.window (O.lead_slots_of offer.now)
        (O.slots_of offer.now) part.now room.free after placed.old.items placed.new.items) }
{
    let reserves = reserves_of(alloc, room.window, part, offer, table)?;
    if reserves.before == 0 {
        return place_frames(room, part, offer, table, reserves.behind, placed);
    }
    place_behind_lead_in(room, part, offer, table, reserves, placed)
}
