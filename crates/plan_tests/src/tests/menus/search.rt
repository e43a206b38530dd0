//! Each plan of a short part from a menu is the first
//! list, found by trying every list of its slots.

use super::planned::plan_of;
use crate::tests::asked::{Asked, needs_of};
use crate::tests::drawn::{drawn, next};
use crate::tests::lists::{Menu, first_list, first_of_all, is_found};
use arrayvec::ArrayVec;
use frame_header::Slot;
use rate_plan::RateFault;
use slot_plan::Need;
use std::alloc::AllocGlobal;
use std::process::Abort;
use std::test::Fail;

/// Whether no list is found after a lead-in up to this
/// frame, and one is found up to each earlier frame.
fn is_unfit(needs: &[Need], menu: Menu<'_>, i: u32) -> bool {
    for (at, _) in needs.iter().enumerate() {
        if first_list(&needs[..at + 1], menu, 1).is_some() != (at < i as usize) {
            return false;
        }
    }
    (i as usize) < needs.len()
}

/// Expects that the planner's result is the one found
/// by trying every list; returns whether it is a plan.
fn expect_searched<R: Abort + AllocGlobal>(
    rt: &R,
    frames: &[Asked],
    slots: &[Slot],
    number: usize,
) -> Result<bool, Fail> {
    let needs = needs_of(rt.alloc(), frames)?;
    let menu = Menu {
        slots,
        is_kept: false,
    };
    let found = first_of_all(needs.as_slice(), menu);
    match plan_of(rt, needs.as_slice(), slots) {
        Ok(plan) => {
            assert!(rt; is_found(plan.placed(), found), "number {number}");
            Ok(true)
        }
        Err(RateFault::Unfit(i)) => {
            let is_so = found.is_none() && is_unfit(needs.as_slice(), menu, i);
            assert!(rt; is_so, "number {number}");
            Ok(false)
        }
        Err(RateFault::Memory) => Err("out of memory".into()),
    }
}

/// Up to four slots, the areas ascending.
fn some_slots(state: &mut u32) -> ArrayVec<Slot, 4> {
    let mut slots = ArrayVec::new();
    let mut place: u32 = 0;
    for _ in 0..next(state) % 4 + 1 {
        place = place.saturating_add(next(state) % 8);
        let slot = Slot {
            rate_index: (place / 2 + 1).min(14) as u8,
            padding: place % 2 == 1,
        };
        if place >= 28 || slots.try_push(slot).is_err() {
            return slots;
        }
        place = place.saturating_add(1);
    }
    slots
}

#[test]
fn parts_by_search(rt: HostRuntime) -> Result<(), Fail> {
    let mut state: u32 = 1;
    let mut plans: u32 = 0;
    for number in 0..400_usize {
        let class = number % 3;
        let slots = some_slots(&mut state);
        let frames = drawn(&mut state, class, if class == 2 { 300 } else { 600 });
        let count = number / 3 % 4 + 1;
        if expect_searched(&rt, &frames[..count], slots.as_slice(), number)? {
            plans = plans.saturating_add(1);
        }
    }
    assert!(rt; plans == 212, "so many have a plan");
    Ok(())
}
