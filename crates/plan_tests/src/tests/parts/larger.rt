//! Plans by a policy that defines its choices alone, worked out by hand.
ghost use Rattle.std.specs.Prelude.{◌≡◌, ◌+◌, ◌-◌, ◌*◌, ◌<◌, slice_range};
ghost use Rattle.std.specs.Int.{from_bool};
ghost use Rattle.frame_header.specs.Slots.{all_slots};

use super::planned::expect_plan;
use crate::tests::asked::{Asked, LARGE, STEREO, needs_of};
use crate::tests::rows::Row;
use crate::tests::rows::Row::{Frame, LeadIn, Padded};
use arrayvec::ArrayVec;
use frame_header::{Class, Header, Slot};
use rate_plan::slices_are_menus;
use slot_plan::Policy;
use std::test::Fail;
use test_files::table;

/// The place of a slot among all of its class, by ascending areas.
fn place_of(slot: Slot) -> usize
    ensures place { result ≡ 2 * (slot.rate_index - 1) + from_bool slot.padding }
    ensures below { result < 28 }
{
    2 * (slot.rate_index as usize - 1) + usize::from(slot.padding)
}

/// The slots of a class from this place on.
fn slots_from(class: Class, place: usize) -> ArrayVec<Slot, 28>
    requires { place < 28 }
    ensures { result.items ≡ slice_range all_slots place 28 }
{
    let all = class.slots();
    let all = all.as_slice();
    prove!(all.len() == 28);
    let mut slots = ArrayVec::new();
    let _fits = slots.try_extend_from_slice(&all[place..]);
    slots
}

/// Each frame has its own slot or a larger one.
#[derive(Clone, Copy)]
struct NoSmaller;

impl Policy for NoSmaller {
    ghost choices_of = { λ p h.
        slice_range all_slots (2 * (h.slot.rate_index - 1) + from_bool h.slot.padding) 28 };

    fn choices(&self, header: &Header) -> ArrayVec<Slot, 28> {
        // Neighbouring slots ascend.
        slices_are_menus();
        slots_from(header.class(), place_of(header.slot))
    }
}

/// Frames of one part, and their plan.
struct Case {
    name: &'static str,
    frames: &'static [Asked],
    plan: &'static [Row],
}

static CASES: [Case; 3] = table! {
    Case { name, frames, plan }
    // The frame at 128 kbit/s has area 381, so padding is enough for the first. The second can't be smaller,
    // which leaves 281 bytes. 611 are missing: 192 kbit/s has area 590, padded 591, and 224 has 695.
    ("padding and a higher bit rate", &[Asked(STEREO, 382), Asked(STEREO, 100), Asked(STEREO, 892)],
        &[Padded(128, 0), Frame(128, 0), Frame(224, 281)])
    // The second has no larger slot, so 291 of its bytes have to be free before it: 691 for the first.
    ("before the largest", &[Asked(STEREO, 400), Asked(LARGE, 1300)], &[Frame(224, 0), Padded(320, 295)])
    // 91 bytes are missing: 40 kbit/s has area 94, and 32 kbit/s padded 69.
    ("a lead-in", &[Asked(LARGE, 1100)], &[LeadIn(40, 0), Padded(320, 94)])
};

#[test]
fn only_choices_written(rt: HostRuntime) -> Result<(), Fail> {
    for case in &CASES {
        let needs = needs_of(rt.alloc(), case.frames)?;
        expect_plan(&rt, &needs, &[0], &NoSmaller, case.plan, case.name)?;
    }
    Ok(())
}
