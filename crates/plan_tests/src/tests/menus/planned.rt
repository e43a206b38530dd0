//! `rate_plan`, called once it is checked that it may be.
ghost use Rattle.std.specs.Prelude.{◌≡◌, ◌<◌, ◌≤◌, IsTrue, AllPairs, length};
ghost use Rattle.slot_plan.specs.Parts.{slot_areas};
ghost use Rattle.rate_plan.specs.Menus.{IsMenu};

use crate::tests::checked::are_of_one_class;
use arrayvec::ArrayVec;
use frame_header::{Class, Slot};
use rate_plan::{RateFault, rate_plan};
use slot_plan::{Need, Plan};
use std::alloc::AllocGlobal;
use std::process::Abort;

/// Whether each area is greater than the one before.
fn ascend(class: Class, protected: bool, menu: &[Slot]) -> bool
    ensures { IsTrue result → AllPairs (λ m n. m < n) (slot_areas class protected menu.now) }
{
    for i in 1..menu.len() {
        if class.area_of(menu[i - 1], protected) >= class.area_of(menu[i], protected) {
            return false;
        }
    }
    true
}

fn is_menu(needs: &[Need], menu: &[Slot]) -> bool
    requires { 0 < length needs.now }
    ensures { IsTrue result → IsMenu menu.now needs.now }
{
    let class = needs[0].header.class();
    ascend(class, false, menu) && ascend(class, true, menu)
}

/// The slots of the bit rates from `least` to `most`, in kbit/s.
pub fn slots_between(class: Class, least: u32, most: u32) -> ArrayVec<Slot, 28> {
    let mut slots = ArrayVec::new();
    for slot in class.slots().as_slice() {
        let rate = class.rate(*slot);
        if least <= rate && rate <= most && slots.try_push(*slot).is_err() {
            return slots;
        }
    }
    slots
}

/// The plan, or the fault of the planner.
pub fn plan_of<R: Abort + AllocGlobal>(
    rt: &R,
    needs: &[Need],
    menu: &[Slot],
) -> Result<Plan, RateFault> {
    assert!(rt; !needs.is_empty());
    assert!(rt; needs.len() <= 2_900_000);
    assert!(rt; !menu.is_empty());
    assert!(rt; menu.len() <= 28);
    assert!(rt; are_of_one_class(needs));
    assert!(rt; is_menu(needs, menu));
    rate_plan(rt.alloc(), needs, menu)
}
