//! Each plan of a part of at most three frames, with or without an added lead-in, is the first list, found by trying
//! every list of slots.

use super::planned::{led_plan_of, plan_of};
use crate::tests::asked::{Asked, HIGH, LOW, needs_of};
use crate::tests::checked::fit;
use crate::tests::lists::{Menu, first_list, first_of_all, is_found};
use frame_header::Slot;
use slot_plan::{Keep, Least, Need, Policy};
use std::alloc::{AllocError, AllocGlobal};
use std::process::Abort;
use std::test::Fail;

/// Whether the plan, and the plan with an added lead-in, are those found by trying every list.
fn is_searched<R: Abort + AllocGlobal, P: Policy>(
    rt: &R,
    needs: &[Need],
    policy: &P,
    menu: Menu<'_>,
) -> Result<bool, AllocError> {
    let plan = plan_of(rt, needs, &[0], policy)?;
    let led = led_plan_of(rt, needs, policy)?;
    Ok(
        is_found(plan.placed(), first_of_all(needs, menu))
            && is_found(led.placed(), first_list(needs, menu, 1)),
    )
}

/// Whether the plans are the ones found, with the slots that the frames have and with all slots.
fn are_searched<R: Abort + AllocGlobal>(
    rt: &R,
    needs: &[Need],
    slots: &[Slot],
) -> Result<bool, AllocError> {
    let own = Menu {
        slots,
        is_kept: true,
    };
    let any = Menu {
        slots,
        is_kept: false,
    };
    Ok(is_searched(rt, needs, &Keep, own)? && is_searched(rt, needs, &Least, any)?)
}

/// Searches where the frames can be laid in their own slots after a whole window; returns whether they can.
fn searched<R: Abort + AllocGlobal>(
    rt: &R,
    needs: &[Need],
    number: usize,
) -> Result<bool, AllocError> {
    assert!(rt; !needs.is_empty());
    let class = needs[0].header.class();
    let window = class.window();
    if !fit(window, window, needs) {
        return Ok(false);
    }
    let are_so = are_searched(rt, needs, class.slots().as_slice())?;
    assert!(rt; are_so, "{} frames, number {number}", needs.len());
    Ok(true)
}

/// Silent frames, frames that need a byte or a whole window more than their area, and frames that leave a whole window.
static FRAMES: [Asked; 9] = [
    Asked(LOW, 0),
    Asked(LOW, 12),
    Asked(LOW, 200),
    Asked(LOW, 266),
    Asked(HIGH, 0),
    Asked(HIGH, 213),
    Asked(HIGH, 468),
    Asked(HIGH, 600),
    Asked(HIGH, 723),
];

/// How many of the lists of `length` frames fit in their slots.
fn count_searched<R: Abort + AllocGlobal>(
    rt: &R,
    length: usize,
    lists: usize,
) -> Result<u32, AllocError> {
    let mut count: u32 = 0;
    for number in 0..lists {
        let frames = [
            FRAMES[number % 9],
            FRAMES[number / 9 % 9],
            FRAMES[number / 81 % 9],
        ];
        let needs = needs_of(rt.alloc(), &frames[..length.min(3)])?;
        if searched(rt, needs.as_slice(), number)? {
            count = count.saturating_add(1);
        }
    }
    Ok(count)
}

/// Expects that `count` of the lists of `length` frames fit in their slots.
fn expect_count<R: Abort + AllocGlobal>(
    rt: &R,
    length: usize,
    lists: usize,
    count: u32,
) -> Result<(), Fail> {
    assert!(rt;
        count_searched(rt, length, lists)? == count,
        "lists of {length}"
    );
    Ok(())
}

/// All single frames, each of which fits in its slot, all lists of two, and all of three.
#[test]
fn all_lists(rt: HostRuntime) -> Result<(), Fail> {
    expect_count(&rt, 1, 9, 9)?;
    expect_count(&rt, 2, 81, 61)?;
    expect_count(&rt, 3, 729, 416)
}
