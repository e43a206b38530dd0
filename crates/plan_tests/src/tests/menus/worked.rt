//! Plans from a menu worked out by hand.

use super::planned::{plan_of, slots_between};
use crate::tests::asked::{Asked, PROTECTED, STEREO, needs_of};
use crate::tests::rows::Row::{Frame, LeadIn, Padded, PaddedLeadIn};
use crate::tests::rows::{Row, expect_rows};
use rate_plan::RateFault;
use std::alloc::AllocGlobal;
use std::process::Abort;
use std::test::Fail;
use test_files::table;

/// The lowest and the highest bit rate of the menu in kbit/s, the most of their slots that it has, and the result: a plan, or no
/// row and the first unfit frame.
struct Case {
    name: &'static str,
    frames: &'static [Asked],
    rates: (u32, u32),
    slots: usize,
    plan: &'static [Row],
    unfit: Option<u32>,
}

/// Areas at 96 kbit/s are 277 and 278, at 64 they are 172 and 173, at 32 they are 68 and 69.
static RATES: [Case; 6] = table! {
    Case { name, frames, rates, slots, plan, unfit }
    ("one rate", &[Asked(STEREO, 300), Asked(STEREO, 400)], (96, 96), 28,
        &[LeadIn(96, 0), Frame(96, 277), Frame(96, 254)], None)
    ("unfit later", &[Asked(STEREO, 300), Asked(STEREO, 400)], (64, 64), 28, &[], Some(1))
    ("unfit at once", &[Asked(STEREO, 300), Asked(STEREO, 400)], (32, 32), 28, &[], Some(0))
    ("a least rate", &[Asked(STEREO, 300), Asked(STEREO, 400)], (128, 320), 28,
        &[Frame(128, 0), Frame(128, 81)], None)
    ("all rates", &[Asked(STEREO, 300), Asked(STEREO, 400)], (32, 320), 28, &[Frame(112, 0), Frame(128, 29)],
        None)
    // Padding is used where it is needed: 278 and 278 hold 556 bytes.
    ("padding by need", &[Asked(STEREO, 156), Asked(STEREO, 400)], (96, 96), 28,
        &[Padded(96, 0), Padded(96, 122)], None)
};

/// The lead-in has no check word: 68 bytes are free after it, and the frame has 66.
static FRAMES: [Case; 7] = table! {
    Case { name, frames, rates, slots, plan, unfit }
    ("behind an unprotected lead-in", &[Asked(PROTECTED, 134)], (32, 32), 28, &[LeadIn(32, 0), Frame(32, 68)],
        None)
    ("all that fits behind a lead-in", &[Asked(PROTECTED, 136)], (32, 32), 28,
        &[PaddedLeadIn(32, 0), Padded(32, 69)], None)
    ("a byte more", &[Asked(PROTECTED, 137)], (32, 32), 28, &[], Some(0))
    // No more than 511 bytes are free, and the largest area is 1,009.
    ("the window", &[Asked(STEREO, 0), Asked(STEREO, 0), Asked(STEREO, 1521), Asked(STEREO, 0)], (256, 320),
        28, &[], Some(2))
    ("silent", &[Asked(STEREO, 0), Asked(STEREO, 0)], (320, 320), 28, &[Frame(320, 0), Frame(320, 511)], None)
    ("one slot, full frames", &[Asked(STEREO, 381), Asked(STEREO, 381)], (128, 128), 1,
        &[Frame(128, 0), Frame(128, 0)], None)
    ("one slot, a byte more", &[Asked(STEREO, 381), Asked(STEREO, 382)], (128, 128), 1,
        &[LeadIn(128, 0), Frame(128, 381), Frame(128, 381)], None)
};

fn expect_case<R: Abort + AllocGlobal>(rt: &R, case: &Case) -> Result<(), Fail> {
    let needs = needs_of(rt.alloc(), case.frames)?;
    let class = needs.as_slice().first().ok_or("no frame")?.header.class();
    let slots = slots_between(class, case.rates.0, case.rates.1);
    let menu = &slots.as_slice()[..case.slots.min(slots.len())];
    match plan_of(rt, needs.as_slice(), menu) {
        Ok(plan) => {
            assert!(rt; case.unfit.is_none(), "{}", case.name);
            expect_rows(rt, needs.as_slice(), plan.placed(), case.plan, case.name);
        }
        Err(RateFault::Unfit(i)) => assert!(rt; case.unfit == Some(i), "{}", case.name),
        Err(RateFault::Memory) => return Err("out of memory".into()),
    }
    Ok(())
}

#[test]
fn plans_by_hand(rt: HostRuntime) -> Result<(), Fail> {
    for case in &RATES {
        expect_case(&rt, case)?;
    }
    for case in &FRAMES {
        expect_case(&rt, case)?;
    }
    Ok(())
}
