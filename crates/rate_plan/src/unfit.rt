//! Whether all frames fit, from first to last, each in the largest slot, after a lead-in in that
//! slot.
ghost use Rattle.std.specs.Prelude.{true, MatchOption};
ghost use Rattle.frame_header.specs.Tables.{window_of};
ghost use Rattle.rate_plan.specs.Menus.{IsMenuOf, ArePlannableNeeds, CanBeLaidFromMenu, IsFirstUnfitFrame};

use crate::largest::Largest;
use frame_header::{Class, Slot};
use slot_plan::{Need, free_behind};

/// The first frame up to which the frames have no layout, even after a lead-in; `None` if all of
/// them have one.
pub(crate) fn first_unfit(class: Class, needs: &[Need], menu: &[Slot]) -> Option<u32>
    requires needs { ArePlannableNeeds class needs.now }
    requires menu { IsMenuOf class menu.now }
    ensures { MatchOption result
        (CanBeLaidFromMenu (window_of class.version) true menu.now needs.now)
        (λ i. IsFirstUnfitFrame (window_of class.version) menu.now needs.now i) }
{
    let window = class.window();
    let largest = Largest::of_menu(class, menu);
    let mut free = free_behind(window, 0, 0, largest.area(false));
    for (i, need) in needs.iter().enumerate() {
        let area = largest.area(need.header.protected);
        if need.bytes > free + area {
            return Some(i as u32);
        }
        free = free_behind(window, free, need.bytes, area);
    }
    None
}
