//! The slots of some bit rates.
ghost use Rattle.std.specs.Prelude.{◌≡◌, ◌≤◌, length, filter};
ghost use Rattle.rate_plan.specs.Menus.{HasAscendingAreas};
ghost use Rattle.pack_edits.specs.Rates.{allows, menu_in};

use arrayvec::ArrayVec;
use frame_header::{Class, Slot};
use requests::PackMode;

fn allows(mode: PackMode, class: Class, slot: Slot) -> bool
    ensures { result ≡ allows mode class slot }
{
    let rate = class.rate(slot);
    match mode {
        PackMode::Least | PackMode::Best => true,
        PackMode::Constant(only) => rate == u32::from(only),
        PackMode::Floor(least) => u32::from(least) <= rate,
    }
}

/// Those of the given slots that have a bit rate which the mode allows.
fn allowed_of(mode: PackMode, class: Class, slots: &[Slot]) -> ArrayVec<Slot, 28>
    requires { length slots.now ≤ 28 }
    ensures { result.items ≡ filter (allows mode class) slots.now }
{
    let mut menu = ArrayVec::new();
    for slot in slots {
        if allows(mode, class, *slot) {
            menu.push(*slot);
        }
    }
    menu
}

/// The slots whose bit rates the mode allows, in order of area.
pub(crate) fn menu_of(mode: PackMode, class: Class) -> ArrayVec<Slot, 28>
    ensures menu { result.items ≡ menu_in mode class }
    ensures ascending { HasAscendingAreas class result.items }
{
    let slots = class.slots();
    allowed_of(mode, class, slots.as_slice())
}
