//! A menu as an offer, for placing.
ghost use Rattle.slot_plan.specs.Parts.{header_areas};
ghost use Rattle.slot_plan.specs.Reserve.{greatest_number};
ghost use Rattle.rate_plan.specs.Menus.{menu_choices};

use frame_header::{Header, Slot};
use slot_plan::{Offer, SlotTable};

/// The slots of a menu, which frames and lead-ins may have.
#[derive(Clone, Copy)]
pub(crate) struct Menu<'a> {
    pub(crate) slots: &'a [Slot],
}

impl<'a> Offer for Menu<'a> {
    ghost slots_of = { λ m. menu_choices m.slots.now };

    // The largest area.
    ghost some_area_of = { λ m h. greatest_number (header_areas (menu_choices m.slots.now) h) };

    ghost lead_slots_of = { λ m. m.slots.now };

    fn largest_area_for(&self, header: &Header, table: &SlotTable) -> u64 {
        table.largest_area(header.protected)
    }

    fn least_slot_for(&self, header: &Header, wanted: u64, table: &SlotTable) -> Slot {
        table.least_slot(header.protected, wanted)
    }
}
