//! What a splice leaves when frames are added to it.
ghost use Rattle.std.specs.Prelude.{◌≡◌, ◌≤◌, ◌<◌, ◌∷◌, length};
ghost use Rattle.frame_header.specs.Tables.{window_of};
ghost use Rattle.slot_plan.specs.FreeBytes.{FitsBehind, IsMostLeft, need_in_slot, needs_with_first_slot};
ghost use Rattle.slot_plan.specs.Parts.{AreNeedsOfClass};

use crate::input::needs_after;
use frame_header::{Class, Slot};
use slot_plan::{Need, free_behind, leaves};

/// A frame's need in another slot. It takes no memory.
pub fn in_slot(need: &Need, slot: Slot) -> Need
    ensures { result ≡ need_in_slot slot need.now }
{
    let mut moved = *need;
    moved.header.slot = slot;
    moved
}

/// The most bytes that a frame and then others leave after `left` bytes. All are of this class and
/// fit after these bytes, which are at most the window.
pub(crate) fn left_behind(class: Class, left: u32, first: &Need, others: &[Need]) -> u32
    requires within { left ≤ window_of class.version }
    requires same { AreNeedsOfClass class others.now }
    requires fits { FitsBehind (window_of class.version) left (first.now ∷ others.now) }
    ensures { IsMostLeft (window_of class.version) left (first.now ∷ others.now) result }
{
    let free = free_behind(class.window(), left, first.bytes, first.header.area());
    leaves(others, free)
}

/// The most bytes that frames leave after `left` bytes, the first of them in this slot. There is at
/// least one; all are of this class, and with it in this slot they fit after these bytes, which are
/// at most the window.
pub(crate) fn left_in_slot(class: Class, left: u32, needs: &[Need], slot: Slot) -> u32
    requires some { 0 < length needs.now }
    requires within { left ≤ window_of class.version }
    requires same { AreNeedsOfClass class needs.now }
    requires fits { FitsBehind (window_of class.version) left
        (needs_with_first_slot slot needs.now) }
    ensures { IsMostLeft (window_of class.version) left (needs_with_first_slot slot needs.now)
        result }
{
    left_behind(
        class,
        left,
        &in_slot(&needs[0], slot),
        needs_after(needs, 1),
    )
}
