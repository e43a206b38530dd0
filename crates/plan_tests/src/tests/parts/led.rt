//! Parts that must have a lead-in, worked out by hand.

use super::planned::{expect_led_plan, expect_plan};
use crate::tests::asked::{Asked, LARGE, LOW, PROTECTED, STEREO, needs_of};
use crate::tests::rows::Row;
use crate::tests::rows::Row::{Frame, LeadIn, Padded};
use slot_plan::{Keep, Least};
use std::alloc::AllocGlobal;
use std::process::Abort;
use std::test::Fail;
use test_files::table;

/// Frames, and their led plans where each keeps its slot and where each may have any.
struct Case {
    name: &'static str,
    frames: &'static [Asked],
    kept: &'static [Row],
    least: &'static [Row],
}

/// Frames that get no lead-in from `plan`.
static WITHOUT: [Case; 2] = table! {
    Case { name, frames, kept, least }
    // The smallest lead-in has area 68, and the first frame leaves 81 more bytes. With any slot 232 of its bytes are
    // missing: 80 kbit/s padded has area 226, and 96 has 277, which leaves 45.
    ("two", &[Asked(STEREO, 300), Asked(STEREO, 400)], &[LeadIn(32, 0), Frame(128, 68), Frame(128, 149)],
        &[LeadIn(32, 0), Frame(96, 68), Frame(128, 45)])
    // The lead-in has no check word, and thus 2 more
    // bytes. No more than the window of 511 bytes is free.
    ("silent", &[Asked(PROTECTED, 0), Asked(STEREO, 0), Asked(STEREO, 0)],
        &[LeadIn(32, 0), Frame(128, 68), Frame(128, 447), Frame(128, 511)],
        &[LeadIn(32, 0), Frame(32, 68), Frame(32, 134), Frame(32, 202)])
};

/// Frames that get the same lead-in from `plan`, where each keeps its slot.
static WITH: [Case; 3] = table! {
    Case { name, frames, kept, least }
    // 19 bytes are missing. With any slot 332 are: 112 kbit/s padded has area 330, and 128 has 381.
    ("stereo", &[Asked(STEREO, 400)], &[LeadIn(32, 0), Frame(128, 68)], &[LeadIn(32, 0), Frame(128, 68)])
    // 189 bytes are missing: 80 kbit/s has area 227. With any slot a lead-in of area 11 is enough, and 189 are missing.
    ("low", &[Asked(LOW, 200)], &[LeadIn(80, 0), Frame(8, 227)], &[LeadIn(8, 0), Frame(80, 11)])
    // 491 bytes have to be free before the second, and thus
    // 68 before the first: no slot is larger than theirs.
    ("large", &[Asked(LARGE, 586), Asked(LARGE, 1500)], &[LeadIn(32, 0), Padded(320, 68), Padded(320, 491)],
        &[LeadIn(32, 0), Padded(320, 68), Padded(320, 491)])
};

fn expect_led<R: Abort + AllocGlobal>(rt: &R, case: &Case) -> Result<(), Fail> {
    let needs = needs_of(rt.alloc(), case.frames)?;
    expect_led_plan(rt, &needs, &Keep, case.kept, case.name)?;
    expect_led_plan(rt, &needs, &Least, case.least, case.name)?;
    Ok(())
}

fn expect_same<R: Abort + AllocGlobal>(rt: &R, case: &Case) -> Result<(), Fail> {
    let needs = needs_of(rt.alloc(), case.frames)?;
    expect_plan(rt, &needs, &[0], &Keep, case.kept, case.name)?;
    Ok(())
}

#[test]
fn a_lead_in_in_any_case(rt: HostRuntime) -> Result<(), Fail> {
    for case in &WITHOUT {
        expect_led(&rt, case)?;
    }
    for case in &WITH {
        expect_led(&rt, case)?;
        expect_same(&rt, case)?;
    }
    Ok(())
}
