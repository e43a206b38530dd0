//! What placing asks of slots: those that a policy gives, or those of a menu.
ghost use Rattle.std.specs.Prelude.{◌≡◌, ◌≤◌, ℕ, List, Contains};
ghost use Rattle.frame_header.specs.Fields.{SlotFields, HeaderFields};
ghost use Rattle.frame_header.specs.Tables.{class_of};
ghost use Rattle.frame_header.specs.Slots.{all_slots};
ghost use Rattle.slot_plan.specs.Parts.{header_areas};
ghost use Rattle.slot_plan.specs.Reserve.{greatest_number, own_area_of, IsLeastSlotFor};
ghost use Rattle.slot_plan.specs.SlotTables.{IsClassTable};

use crate::policy::Policy;
use crate::table::SlotTable;
use frame_header::{Header, Slot};

/// The slots of frames and of lead-ins, as placing asks for them. Every `Policy` is an offer, in
/// which a lead-in may have any slot of the class.
pub trait Offer {
    // The slots that a frame with this header may have, and one of their areas.
    ghost slots_of: { Self → HeaderFields → List SlotFields };

    ghost some_area_of: { Self → HeaderFields → ℕ };

    // The slots that a lead-in may have.
    ghost lead_slots_of: { Self → List SlotFields };

    /// The largest area that a frame with this header may have, in bytes. The table has the slots
    /// of lead-ins.
    fn largest_area_for(&self, header: &Header, table: &SlotTable) -> u64
        requires table { IsClassTable (class_of header.now) (lead_slots_of self.now) table.now }
        ensures largest { result ≡ greatest_number (header_areas (slots_of self.now) header.now) }
        ensures has { Contains (header_areas (slots_of self.now) header.now)
            (some_area_of self.now header.now) };

    /// Of the slots that a frame with this header may have, the one with the smallest area of at
    /// least `wanted` bytes. The largest area has at least `wanted` bytes.
    fn least_slot_for(&self, header: &Header, wanted: u64, table: &SlotTable) -> Slot
        requires table { IsClassTable (class_of header.now) (lead_slots_of self.now) table.now }
        requires enough { wanted ≤ greatest_number (header_areas (slots_of self.now) header.now) }
        ensures { IsLeastSlotFor wanted (slots_of self.now) header.now result };
}

impl<P: Policy> Offer for P {
    ghost slots_of = { P.choices_of };

    // The header's own area.
    ghost some_area_of = { λ p. own_area_of };

    ghost lead_slots_of = { λ p. all_slots };

    fn largest_area_for(&self, header: &Header, table: &SlotTable) -> u64 {
        u64::from(self.largest_area_by(header, table))
    }

    fn least_slot_for(&self, header: &Header, wanted: u64, table: &SlotTable) -> Slot {
        self.least_slot_by(header, wanted, table)
    }
}
