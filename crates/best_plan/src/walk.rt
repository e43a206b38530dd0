//! Places the frames, from first to last: each in the area that the table has for the bytes that
//! are free before it.
ghost use Rattle.std.specs.Prelude.{◌≡◌, ◌<◌, ◌≤◌, length, IfOk};
ghost use Rattle.frame_header.specs.Tables.{class_of, area_of};
ghost use Rattle.slot_plan.specs.Parts.{AreNeedsOfClass};
ghost use Rattle.best_plan.specs.Table.{need_areas, CanWalkTable, IsFrameAt, WalksTable};
ghost use Rattle.frame_header.specs.Limits.{most_back, most_frame_length};

use frame_header::Slot;
use slot_plan::{Lengths, Need, Placed, Policy, Room, free_behind};
use std::alloc::AllocError;

/// The frame in the slot at this place of its choices.
fn frame_at<P: Policy>(need: &Need, place: u8, free: u32, policy: &P) -> Placed
    requires place { place < length (need_areas (P.choices_of policy.now) need.now) }
    requires free { free ≤ most_back }
    ensures { IsFrameAt (P.choices_of policy.now) need.now place free result }
{
    let choices = policy.choices(&need.header);
    Placed {
        lead_in: false,
        slot: choices.as_slice()[place as usize],
        begin: free as u16,
    }
}

/// The area of a frame in this slot, in bytes.
fn area_with(need: &Need, slot: Slot, lengths: &Lengths) -> u32
    requires class { lengths.now ≡ class_of need.now.header }
    ensures area { result ≡ area_of (class_of need.now.header) slot need.now.header.protected }
    ensures most { result ≤ most_frame_length }
{
    lengths.area_of(slot, need.header.protected)
}

/// Places the frames. `room` is what is free before the first.
///
/// # Errors
/// If memory runs out.
pub(crate) fn walk<P: Policy>(
    room: Room,
    needs: &[Need],
    policy: &P,
    lengths: &Lengths,
    places: Vec<u8>,
    placed: &mut Vec<Placed>,
) -> Result<(), AllocError>
    requires class { AreNeedsOfClass lengths.now needs.now }
    requires window { room.window ≤ most_back }
    requires free { room.free ≤ room.window }
    requires table { CanWalkTable room.window (P.choices_of policy.now) room.free needs.now
        places.items }
    ensures { IfOk result (λ _. WalksTable room.window (P.choices_of policy.now) room.free needs.now
        placed.old.items placed.new.items) }
{
    let window = room.window;
    let width = window as usize + 1;
    let mut places = places;
    let mut free = room.free;
    for need in needs {
        let from = places.len() - width;
        let place = places[from + free as usize];
        places.truncate(from);
        let frame = frame_at(need, place, free, policy);
        let area = area_with(need, frame.slot, lengths);
        free = free_behind(window, free, need.bytes, area);
        placed.push(frame)?;
    }
    Ok(())
}
