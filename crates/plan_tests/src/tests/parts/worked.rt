//! Parts whose plans were worked out by hand.

use super::planned::expect_plan;
use crate::tests::asked::{Asked, LARGE, LOW, PROTECTED, STEREO, needs_of};
use crate::tests::rows::Row;
use crate::tests::rows::Row::{Frame, LeadIn, Padded};
use frame_header::Header;
use slot_plan::{Keep, Least, Need};
use std::alloc::{AllocError, AllocGlobal, Global};
use std::process::Abort;
use std::test::Fail;
use test_files::table;

/// Frames, where their parts begin, and their plans where each keeps its slot and where each may have any.
struct Case {
    name: &'static str,
    frames: &'static [Asked],
    parts: &'static [u32],
    kept: &'static [Row],
    least: &'static [Row],
}

static ALONE: [Case; 6] = table! {
    Case { name, frames, parts, kept, least }
    // 19 bytes are missing: a lead-in of area 68. With any slot, 160 kbit/s has area 486.
    ("stereo", &[Asked(STEREO, 400)], &[0], &[LeadIn(32, 0), Frame(128, 68)], &[Frame(160, 0)])
    // The frame has 379 bytes, and the lead-in 68, since it has no check word. At 160 kbit/s the frame has
    // 484.
    ("protected", &[Asked(PROTECTED, 447)], &[0], &[LeadIn(32, 0), Frame(128, 68)], &[Frame(160, 0)])
    // 189 bytes are missing: 80 kbit/s with area 227, which with any slot has room for all 200.
    ("low", &[Asked(LOW, 200)], &[0], &[LeadIn(80, 0), Frame(8, 227)], &[Frame(80, 0)])
    // The reservoir is kept for the frames after, so the first two can't be smaller.
    ("large", &[Asked(LARGE, 498), Asked(LARGE, 1009), Asked(LARGE, 1520)], &[0],
        &[Padded(320, 0), Padded(320, 511), Padded(320, 511)],
        &[Padded(320, 0), Padded(320, 511), Padded(320, 511)])
    // 112 kbit/s has area 329, which leaves 29.
    ("two", &[Asked(STEREO, 300), Asked(STEREO, 400)], &[0], &[Frame(128, 0), Frame(128, 81)],
        &[Frame(112, 0), Frame(128, 29)])
    // No more than the window of 511 bytes is free.
    ("silent", &[Asked(STEREO, 0), Asked(STEREO, 0), Asked(STEREO, 0)], &[0],
        &[Frame(128, 0), Frame(128, 381), Frame(128, 511)], &[Frame(32, 0), Frame(32, 68), Frame(32, 136)])
};

static JOINED: [Case; 4] = table! {
    Case { name, frames, parts, kept, least }
    // The second part has the lead-in that it has alone, though 62 bytes are free.
    ("two parts", &[Asked(STEREO, 300), Asked(STEREO, 400), Asked(STEREO, 400)], &[0, 2],
        &[Frame(128, 0), Frame(128, 81), LeadIn(32, 62), Frame(128, 130)],
        &[Frame(112, 0), Frame(128, 29), Frame(160, 10)])
    // 119 bytes are missing for the third part: 48 kbit/s with area 120.
    ("three parts", &[Asked(STEREO, 400), Asked(STEREO, 420), Asked(STEREO, 500)], &[0, 1, 2],
        &[LeadIn(32, 0), Frame(128, 68), LeadIn(32, 49), Frame(128, 117), LeadIn(48, 78), Frame(128, 198)],
        &[Frame(160, 0), Frame(128, 86), Frame(160, 47)])
    // The lead-in's 68 bytes go through the unprotected frame to the protected one.
    ("protected among unprotected", &[Asked(STEREO, 381), Asked(PROTECTED, 447), Asked(STEREO, 300)], &[0],
        &[LeadIn(32, 0), Frame(128, 68), Frame(128, 68), Frame(128, 0)],
        &[Frame(128, 0), Frame(160, 0), Frame(96, 37)])
    ("a silent part", &[Asked(STEREO, 400), Asked(STEREO, 0), Asked(STEREO, 0)], &[0, 1],
        &[LeadIn(32, 0), Frame(128, 68), Frame(128, 49), Frame(128, 430)],
        &[Frame(160, 0), Frame(32, 86), Frame(32, 154)])
};

fn expect_plans<R: Abort + AllocGlobal>(rt: &R, case: &Case) -> Result<(), Fail> {
    let needs = needs_of(rt.alloc(), case.frames)?;
    expect_plan(rt, &needs, case.parts, &Keep, case.kept, case.name)?;
    expect_plan(rt, &needs, case.parts, &Least, case.least, case.name)?;
    Ok(())
}

#[test]
fn frames_alone_and_parts_joined(rt: HostRuntime) -> Result<(), Fail> {
    for cases in [ALONE.as_slice(), JOINED.as_slice()] {
        for case in cases {
            expect_plans(&rt, case)?;
        }
    }
    Ok(())
}

/// 29 silent frames of area 11, and one with 200 bytes of main data.
fn thirty_needs(alloc: Global, header: Header) -> Result<Vec<Need>, AllocError> {
    let mut needs = Vec::with_capacity(alloc, 30)?;
    for at in 0..30 {
        let bytes = if at == 29 { 200 } else { 0 };
        needs.push(Need { header, bytes })?;
    }
    Ok(needs)
}

/// Each frame has all areas before it, but no more than 255 bytes of them.
fn thirty_rows(alloc: Global) -> Result<Vec<Row>, AllocError> {
    let mut rows = Vec::with_capacity(alloc, 30)?;
    for at in 0..30 {
        rows.push(Frame(8, (11 * at).min(255)))?;
    }
    Ok(rows)
}

#[test]
fn thirty_frames(rt: HostRuntime) -> Result<(), Fail> {
    let needs = thirty_needs(rt.alloc(), Header::read(LOW)?)?;
    let rows = thirty_rows(rt.alloc())?;
    expect_plan(&rt, &needs, &[0], &Keep, &rows, "kept")?;
    expect_plan(&rt, &needs, &[0], &Least, &rows, "least")?;
    Ok(())
}
