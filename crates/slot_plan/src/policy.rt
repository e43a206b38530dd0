//! The slots among which a frame may choose.
ghost use Rattle.std.specs.Prelude.{◌≡◌, ◌<◌, ◌≤◌, List, [], ◌∷◌, map, Contains, AllPairs};
ghost use Rattle.frame_header.specs.Fields.{SlotFields, HeaderFields};
ghost use Rattle.frame_header.specs.Tables.{class_of, area_of};
ghost use Rattle.frame_header.specs.Slots.{all_slots};
ghost use Rattle.slot_plan.specs.Parts.{header_areas};
ghost use Rattle.slot_plan.specs.Reserve.{greatest_number, IsLargestAreaFor, IsLeastSlotFor};
ghost use Rattle.slot_plan.specs.SlotTables.{IsClassTable};

use crate::ascending::{largest_area_of, least_slot_among};
use crate::table::SlotTable;
use arrayvec::ArrayVec;
use frame_header::{Header, Slot};

/// The slots that a frame may have. Only `choices` must be written; the others follow from it, and
/// a policy that can compute them without the list may write them too.
pub trait Policy {
    ghost choices_of: { Self → HeaderFields → List SlotFields };

    /// The slots that a frame with this header may have, their areas ascending. Its own slot is
    /// among them.
    fn choices(&self, header: &Header) -> ArrayVec<Slot, 28>
        ensures choices { result.items ≡ choices_of self.now header.now }
        ensures ascending { AllPairs (λ m n. m < n)
            (map (λ s. area_of (class_of header.now) s header.now.protected) result.items) }
        ensures own { Contains result.items header.now.slot };

    /// The largest area that a frame with this header may have, in bytes: the area of the last
    /// choice.
    fn largest_area(&self, header: &Header) -> u32
        ensures { IsLargestAreaFor (choices_of self.now) header.now result }
    {
        let choices = self.choices(header);
        largest_area_of(header.class(), header.protected, choices.as_slice())
    }

    /// Of the slots that a frame with this header may have, the one with the smallest area of at
    /// least `wanted` bytes, which is the first such slot. The largest area has at least `wanted`
    /// bytes.
    fn least_slot(&self, header: &Header, wanted: u64) -> Slot
        requires { wanted ≤ greatest_number (header_areas (choices_of self.now) header.now) }
        ensures { IsLeastSlotFor wanted (choices_of self.now) header.now result }
    {
        let choices = self.choices(header);
        least_slot_among(header.class(), header.protected, choices.as_slice(), wanted)
    }

    /// `largest_area` with a table of the lengths of the header's class.
    fn largest_area_by(&self, header: &Header, _table: &SlotTable) -> u32
        requires class { _table.now.lengths ≡ class_of header.now }
        ensures { IsLargestAreaFor (choices_of self.now) header.now result }
    {
        self.largest_area(header)
    }

    /// `least_slot` with a table of all slots of the header's class.
    fn least_slot_by(&self, header: &Header, wanted: u64, _table: &SlotTable) -> Slot
        requires table { IsClassTable (class_of header.now) all_slots _table.now }
        requires enough { wanted ≤ greatest_number (header_areas (choices_of self.now) header.now) }
        ensures { IsLeastSlotFor wanted (choices_of self.now) header.now result }
    {
        self.least_slot(header, wanted)
    }
}

/// Each frame keeps its own slot.
#[derive(Clone, Copy, Debug, PartialEq, Eq)]
pub struct Keep;

impl Policy for Keep {
    ghost choices_of = { λ p h. h.slot ∷ [] };

    fn choices(&self, header: &Header) -> ArrayVec<Slot, 28> {
        let mut slots = ArrayVec::new();
        slots.push(header.slot);
        slots
    }

    fn largest_area_by(&self, header: &Header, table: &SlotTable) -> u32 {
        table.lengths.area_of(header.slot, header.protected)
    }

    fn least_slot_by(&self, header: &Header, _wanted: u64, _table: &SlotTable) -> Slot {
        header.slot
    }
}

/// The slot with the largest area.
const LARGEST_SLOT: Slot = Slot {
    rate_index: 14,
    padding: true,
};

/// Each frame may have any of the 28 slots of its class.
#[derive(Clone, Copy, Debug, PartialEq, Eq)]
pub struct Least;

impl Policy for Least {
    ghost choices_of = { λ p h. all_slots };

    fn choices(&self, header: &Header) -> ArrayVec<Slot, 28> {
        // Reading the slot gives the proof that the header's own slot is one of them.
        let _ = &header.slot;
        header.class().slots()
    }

    fn largest_area_by(&self, header: &Header, table: &SlotTable) -> u32 {
        table.lengths.area_of(LARGEST_SLOT, header.protected)
    }

    fn least_slot_by(&self, header: &Header, wanted: u64, table: &SlotTable) -> Slot {
        table.least_slot(header.protected, wanted)
    }
}
