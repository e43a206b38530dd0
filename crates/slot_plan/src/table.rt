//! A table of slots of one class whose areas ascend, by the length of a frame.
ghost use Rattle.std.specs.Prelude.{◌≡◌, ◌+◌, ◌<◌, false, List, length, IfOk};
ghost use Rattle.frame_header.specs.Fields.{SlotFields};
ghost use Rattle.frame_header.specs.Tables.{overhead_of};
ghost use Rattle.frame_header.specs.Slots.{all_slots};
ghost use Rattle.slot_plan.specs.Parts.{slot_areas, AreRisingSlots};
ghost use Rattle.slot_plan.specs.Reserve.{greatest_number, IsLeastSlot};
ghost use Rattle.slot_plan.specs.SlotTables.{IsSlotTable, IsClassTable};

use crate::lengths::Lengths;
use frame_header::{Class, Slot};
use std::alloc::{AllocError, Global};

/// The lengths of a class, and for each number of bytes the first of some slots whose frames have
/// at least as many.
#[derive(Drop)]
pub struct SlotTable {
    pub lengths: Lengths,
    /// The first slot whose frames have at least this many bytes, from 0 to the length of the last
    /// slot's frames.
    pub by_length: Vec<Slot>,
}

impl SlotTable {
    /// The table of these slots, at least one, whose areas ascend.
    ///
    /// # Errors
    /// If memory runs out.
    pub fn new(alloc: Global, class: Class, slots: &[Slot]) -> Result<SlotTable, AllocError>
        requires { AreRisingSlots class false slots.now }
        ensures { IfOk result (IsClassTable class slots.now) }
    {
        let last = class.length_of(slots[slots.len() - 1]);
        let mut by_length = Vec::with_capacity(alloc, last as usize + 1)?;
        for slot in slots {
            let length = class.length_of(*slot);
            by_length.resize(length as usize + 1, *slot)?;
        }
        let lengths = Lengths::new(class);
        Ok(SlotTable { lengths, by_length })
    }

    /// The table of all slots of this class.
    ///
    /// # Errors
    /// If memory runs out.
    pub fn of_class(alloc: Global, class: Class) -> Result<SlotTable, AllocError>
        ensures { IfOk result (IsClassTable class all_slots) }
    {
        let slots = class.slots();
        SlotTable::new(alloc, class, slots.as_slice())
    }

    /// The largest area of the slots, in bytes: the area of the longest frame.
    pub fn largest_area(&self, protected: bool) -> u64
        requires within { overhead_of self.now.lengths protected
            < length self.now.by_length.items }
        ensures largest { (slots : List SlotFields) → IsSlotTable slots self.now
            → result ≡ greatest_number (slot_areas self.now.lengths protected slots) }
    {
        let longest = self.by_length.len() as u64 - 1;
        longest - u64::from(self.lengths.overhead_of(protected))
    }

    /// The slot with the smallest area of at least `wanted` bytes. One of the slots has such an
    /// area.
    pub fn least_slot(&self, protected: bool, wanted: u64) -> Slot
        requires within { wanted + overhead_of self.now.lengths protected < length
            self.now.by_length.items }
        ensures least { (slots : List SlotFields) → IsSlotTable slots self.now
            → IsLeastSlot wanted self.now.lengths protected slots result }
    {
        let overhead = self.lengths.overhead_of(protected);
        self.by_length[wanted as usize + overhead as usize]
    }
}
