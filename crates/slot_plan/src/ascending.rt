//! Slots of one class whose areas ascend: the largest area, and the smallest slot that is large
//! enough.
ghost use Rattle.std.specs.Prelude.{◌≡◌, ◌≤◌};
ghost use Rattle.slot_plan.specs.Parts.{slot_areas, AreRisingSlots};
ghost use Rattle.slot_plan.specs.Reserve.{greatest_number, IsLeastSlot};
ghost use Rattle.frame_header.specs.Limits.{most_frame_length};

use frame_header::{Class, Slot};

/// The largest of these slots' areas, from 1 to 1,441 bytes: the last slot has it. There is at
/// least one slot.
pub fn largest_area_of(class: Class, protected: bool, slots: &[Slot]) -> u32
    requires rising { AreRisingSlots class protected slots.now }
    ensures largest { result ≡ greatest_number (slot_areas class protected slots.now) }
    ensures most { result ≤ most_frame_length }
{
    class.area_of(slots[slots.len() - 1], protected)
}

/// The first of these slots with an area of at least `wanted` bytes, as the last has. There is at
/// least one slot, and the areas ascend.
pub(crate) fn least_slot_among(class: Class, protected: bool, slots: &[Slot], wanted: u64) -> Slot
    requires rising { AreRisingSlots class protected slots.now }
    requires enough { wanted ≤ greatest_number (slot_areas class protected slots.now) }
    ensures { IsLeastSlot wanted class protected slots.now result }
{
    for place in 0..slots.len() - 1 {
        let slot = slots[place];
        if wanted <= u64::from(class.area_of(slot, protected)) {
            return slot;
        }
    }
    slots[slots.len() - 1]
}
