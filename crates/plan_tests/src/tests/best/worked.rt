//! Best plans worked out by hand.

use super::planned::best_of;
use crate::tests::asked::{Asked, LARGE, STEREO, needs_of};
use crate::tests::rows::Row::{Frame, LeadIn, Padded};
use crate::tests::rows::{Row, expect_rows};
use std::alloc::AllocGlobal;
use std::process::Abort;
use std::test::Fail;
use test_files::table;

/// Frames, and their plan.
struct Case {
    name: &'static str,
    frames: &'static [Asked],
    plan: &'static [Row],
}

static CASES: [Case; 6] = table! {
    Case { name, frames, plan }
    // Areas 69 and 382, together 451; the least list in order of frames has 68 and 486.
    ("a byte more in front", &[Asked(STEREO, 68), Asked(STEREO, 383)], &[Padded(32, 0), Padded(128, 1)])
    // 329 and 381 have the same sum as 381 and 329.
    ("of one sum the first in order", &[Asked(STEREO, 300), Asked(STEREO, 400)],
        &[Frame(112, 0), Frame(128, 29)])
    // One byte is missing. 225 and 799 have the same sum as 329 and 695, and all others more.
    ("behind a lead-in", &[Asked(LARGE, 1010)], &[LeadIn(80, 0), Frame(256, 225)])
    ("one", &[Asked(STEREO, 400)], &[Frame(160, 0)])
    // From `checks/laid.py`, which shares nothing with the crates and has its own table: the areas have 3,497 bytes, 6 more than
    // the main data.
    ("ten",
        &[
            Asked(STEREO, 300), Asked(STEREO, 0), Asked(STEREO, 700), Asked(STEREO, 95), Asked(STEREO, 420),
            Asked(STEREO, 260), Asked(LARGE, 1100), Asked(STEREO, 30), Asked(STEREO, 381), Asked(STEREO, 205),
        ],
        &[
            Frame(112, 0), Frame(48, 29), Frame(192, 149), Frame(64, 39), Frame(128, 116), Frame(128, 77),
            Frame(320, 198), Frame(64, 106), Frame(64, 248), Frame(64, 39),
        ])
    ("silent", &[Asked(STEREO, 0), Asked(STEREO, 0), Asked(STEREO, 0)],
        &[Frame(32, 0), Frame(32, 68), Frame(32, 136)])
};

fn expect_plan<R: Abort + AllocGlobal>(rt: &R, case: &Case) -> Result<(), Fail> {
    let needs = needs_of(rt.alloc(), case.frames)?;
    let plan = best_of(rt, needs.as_slice())?.ok_or("no plan")?;
    expect_rows(rt, needs.as_slice(), plan.placed(), case.plan, case.name);
    Ok(())
}

#[test]
fn plans_by_hand(rt: HostRuntime) -> Result<(), Fail> {
    for case in &CASES {
        expect_plan(&rt, case)?;
    }
    Ok(())
}
