//! Frames in their own slots after some free bytes: after how many they fit, how many they leave,
//! and in which slot they join the frames that left these bytes.
ghost use Rattle.std.specs.Prelude.{◌<◌, ◌≤◌, length};
ghost use Rattle.frame_header.specs.Fields.{ClassFields};
ghost use Rattle.frame_header.specs.Tables.{window_of};
ghost use Rattle.slot_plan.specs.Parts.{AreNeedsOfClass};
ghost use Rattle.slot_plan.specs.FreeBytes.{FitBehindWindow, FitBehindFree, IsLeastWanted, IsMostLeft, IsLeadInHeader, CanJoinBehind, IsJoinSlot};

use crate::ascending::{largest_area_of, least_slot_among};
use crate::needs::Need;
use crate::slots::free_behind;
use frame_header::{Header, Slot};

/// The least number of bytes after which the frames fit, each in its own slot: with this many bytes
/// free before the first frame, the main data of all frames have room. At most the window; 0 for no
/// frames.
///
/// The frames are of one class, and fit after a whole window.
pub fn wants(needs: &[Need]) -> u32
    requires { FitBehindWindow needs.now }
    ensures { (class : ClassFields) → AreNeedsOfClass class needs.now
        → IsLeastWanted (window_of class.version) needs.now result }
{
    let mut wanted = 0;
    for i in (0..needs.len()).rev() {
        let need = &needs[i];
        let area = need.header.area();
        wanted = (need.bytes + wanted).saturating_sub(area);
    }
    wanted
}

/// The most bytes that the frames, each in its own slot, leave after `free` bytes: the next frame
/// can have this many bytes of main data before its own area. At most the window; `free` for no
/// frames.
///
/// The frames are of one class, and fit after `free` bytes, which are at most the window.
pub fn leaves(needs: &[Need], free: u32) -> u32
    requires { FitBehindFree free needs.now }
    ensures { (class : ClassFields) → AreNeedsOfClass class needs.now
        → free ≤ window_of class.version
        → IsMostLeft (window_of class.version) free needs.now result }
{
    let mut left = free;
    for need in needs {
        let window = need.header.class().window();
        left = free_behind(window, left, need.bytes, need.header.area());
    }
    left
}

/// The header of the lead-in of these frames, each in its own slot: the first frame's header
/// without a check word, in the least slot after whose area they fit.
///
/// There is at least one frame; they are of one class, and fit after a whole window.
pub fn lead_in(needs: &[Need]) -> Header
    requires some { 0 < length needs.now }
    requires fits { FitBehindWindow needs.now }
    ensures { (class : ClassFields) → AreNeedsOfClass class needs.now
        → IsLeadInHeader (window_of class.version) needs.now result }
{
    let first = &needs[0];
    let header = &first.header;
    // Reading the slot gives the proof that the header's class is one of the standard's, in which
    // some slot is large enough.
    let _ = &header.slot;
    let class = header.class();
    let slots = class.slots();
    let slot = least_slot_among(class, false, slots.as_slice(), u64::from(wants(needs)));
    header.unprotected(slot)
}

/// The slot in which the frames join others that left `free` bytes: the least slot, not less than
/// the first frame's own, in which the first frame and then the others, in their own slots, fit
/// after these bytes. `None` if there is no such slot.
///
/// There is at least one frame; they are of one class, and fit after a whole window, which is at
/// least `free`.
pub fn joins(free: u32, needs: &[Need]) -> Option<Slot>
    requires { CanJoinBehind free needs.now }
    ensures { (class : ClassFields) → AreNeedsOfClass class needs.now
        → IsJoinSlot (window_of class.version) free needs.now result }
{
    let first = &needs[0];
    let header = &first.header;
    let class = header.class();
    let slots = class.slots();
    let own = header.area();
    let missing = (first.bytes + wants(&needs[1..])).saturating_sub(free);
    let wanted = missing.max(own);
    if largest_area_of(class, header.protected, slots.as_slice()) < wanted {
        return None;
    }
    Some(least_slot_among(class, header.protected, slots.as_slice(), u64::from(wanted)))
}
