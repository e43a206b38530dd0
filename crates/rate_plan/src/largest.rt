//! The largest areas of a menu.
ghost use Rattle.std.specs.Prelude.{◌≡◌};
ghost use Rattle.rate_plan.specs.Menus.{IsMenuOf};
ghost use Rattle.rate_plan.specs.LargestAreas.{menu_largest_area, AreLargestAreas};

use frame_header::{Class, Slot};
use slot_plan::largest_area_of;

/// The largest areas of the slots of a menu, in bytes, for frames without a check word and with
/// one.
#[derive(Clone, Copy)]
pub(crate) struct Largest {
    pub(crate) unprotected: u32,
    pub(crate) protected: u32,
}

impl Largest {
    /// The largest areas of this menu.
    pub(crate) fn of_menu(class: Class, menu: &[Slot]) -> Largest
        requires { IsMenuOf class menu.now }
        ensures { AreLargestAreas class menu.now result }
    {
        Largest {
            unprotected: largest_area_of(class, false, menu),
            protected: largest_area_of(class, true, menu),
        }
    }

    /// The largest area of a frame with or without a check word.
    pub(crate) fn area(self, protected: bool) -> u32
        ensures { result ≡ menu_largest_area self protected }
    {
        if protected {
            self.protected
        } else {
            self.unprotected
        }
    }
}
