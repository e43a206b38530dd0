//! Each best plan of a short part is the list with the
//! least sum, found by trying every list of slots.

use super::planned::best_of;
use crate::tests::asked::{Asked, needs_of};
use crate::tests::drawn::drawn;
use crate::tests::lists::{Found, Menu, is_found, least_list};
use slot_plan::Need;
use std::alloc::AllocGlobal;
use std::process::Abort;
use std::test::Fail;

/// The first list whose sum of areas is the least, with a lead-in only where there is none without.
fn searched(needs: &[Need]) -> Option<Found> {
    let slots = needs.first()?.header.class().slots();
    let menu = Menu {
        slots: slots.as_slice(),
        is_kept: false,
    };
    let found = least_list(needs, menu, 0);
    if found.is_none() && needs.len() < 3 {
        return least_list(needs, menu, 1);
    }
    found
}

/// The plan is the one found by trying every list, where both are there.
fn expect_searched<R: Abort + AllocGlobal>(
    rt: &R,
    frames: &[Asked],
    number: usize,
) -> Result<bool, Fail> {
    let needs = needs_of(rt.alloc(), frames)?;
    let Some(plan) = best_of(rt, needs.as_slice())? else {
        return Ok(false);
    };
    let wanted = searched(needs.as_slice());
    if wanted.is_none() {
        return Ok(false);
    }
    assert!(rt; is_found(plan.placed(), wanted), "number {number}");
    Ok(true)
}

#[test]
fn parts_by_search(rt: HostRuntime) -> Result<(), Fail> {
    let mut state: u32 = 1;
    let mut count: u32 = 0;
    for number in 0..200_usize {
        let class = if number % 2 == 0 { 2 } else { number / 2 % 2 };
        let limit = if class == 2 { 600 } else { 1_200 };
        let frames = drawn(&mut state, class, limit);
        let some = if number == 100 { 4 } else { number % 3 + 1 };
        if expect_searched(&rt, &frames[..some], number)? {
            count = count.saturating_add(1);
        }
    }
    assert!(rt; count == 182, "so many are compared");
    Ok(())
}
