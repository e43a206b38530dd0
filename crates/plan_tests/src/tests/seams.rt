//! The free bytes that frames in their own slots need and leave, their lead-in, and the slot in which they join
//! others, worked out by hand.

use crate::tests::asked::{Asked, PROTECTED, STEREO, needs_of};
use crate::tests::checked::fit_behind;
use slot_plan::{Need, joins, lead_in, leaves, wants};
use std::alloc::AllocGlobal;
use std::process::Abort;
use std::test::Fail;
use test_files::table;

/// MPEG-1, 44,100 Hz, 320 kbit/s, stereo: 1,044 bytes, area 1,008.
const LARGEST_RATE: [u8; 4] = [0xff, 0xfb, 0xe0, 0x00];

/// Frames: how many free bytes they need, how many they leave
/// after `free` bytes, and the header of their lead-in.
struct Case {
    name: &'static str,
    frames: &'static [Asked],
    free: u32,
    wants: u32,
    leaves: u32,
    lead_in: [u8; 4],
}

static CASES: [Case; 4] = table! {
    Case { name, frames, free, wants, leaves, lead_in }
    // Each has 19 bytes more than its area. 40 kbit/s padded has area 95.
    ("five frames", &[Asked(STEREO, 400), Asked(STEREO, 400), Asked(STEREO, 400), Asked(STEREO, 400), Asked(STEREO, 400)],
        95, 95, 0, [0xff, 0xfb, 0x22, 0x00])
    // No more than the window is free before the third, which takes 500 of its bytes.
    ("behind silent frames", &[Asked(STEREO, 0), Asked(STEREO, 0), Asked(STEREO, 881)], 511, 0, 11, [0xff, 0xfb, 0x10, 0x00])
    ("two large frames", &[Asked(LARGEST_RATE, 0), Asked(LARGEST_RATE, 1510)], 0, 0, 9, [0xff, 0xfb, 0x10, 0x00])
    // 68 bytes are missing, which the lead-in has, since it has no check word.
    ("with a check word", &[Asked(PROTECTED, 447)], 70, 68, 2, [0xff, 0xfb, 0x10, 0x00])
};

/// Whether they need and leave these numbers of bytes,
/// once it is checked that this may be computed.
fn are_so(needs: &[Need], free: u32, wanted: u32, left: u32) -> bool {
    if needs.is_empty() || !fit_behind(needs, free) {
        return false;
    }
    wants(needs) == wanted && leaves(needs, free) == left
}

fn is_led_by(needs: &[Need], header: [u8; 4]) -> bool {
    if needs.is_empty() || !fit_behind(needs, needs[0].header.class().window()) {
        return false;
    }
    lead_in(needs).bytes() == header
}

fn expect_case<R: Abort + AllocGlobal>(rt: &R, case: &Case) -> Result<(), Fail> {
    let needs = needs_of(rt.alloc(), case.frames)?;
    assert!(rt;
        are_so(&needs, case.free, case.wants, case.leaves),
        "{}",
        case.name
    );
    assert!(rt; is_led_by(&needs, case.lead_in), "{}", case.name);
    Ok(())
}

#[test]
fn wanted_and_left(rt: HostRuntime) -> Result<(), Fail> {
    for case in &CASES {
        expect_case(&rt, case)?;
    }
    Ok(())
}

/// Frames after `free` bytes, and the header of the first of them in the slot in which they join; `None` where they
/// don't.
struct Joining {
    name: &'static str,
    free: u32,
    frames: &'static [Asked],
    first: Option<[u8; 4]>,
}

static JOININGS: [Joining; 5] = table! {
    Joining { name, free, frames, first }
    // 389 bytes are missing: 128 kbit/s padded has area 382, and 160 has 486.
    ("the first too long", 11, &[Asked(STEREO, 400)], Some([0xff, 0xfb, 0xa0, 0x00]))
    // The first fits, but the second needs 19 free bytes, and 11 are left.
    ("the second too long", 11, &[Asked(STEREO, 381), Asked(STEREO, 400)], Some([0xff, 0xfb, 0xa0, 0x00]))
    // 485 bytes are missing. With a check word 160 kbit/s has area 484.
    ("with a check word", 11, &[Asked(PROTECTED, 496)], Some([0xff, 0xfa, 0xa2, 0x00]))
    // 1,091 bytes are missing, and the largest area is 1,009.
    ("no slot is enough", 9, &[Asked(LARGEST_RATE, 1100)], None)
    // Smaller slots would do, but a frame gets no slot smaller than its own.
    ("its own slot", 511, &[Asked(STEREO, 400)], Some(STEREO))
};

fn join_so(needs: &[Need], free: u32, first: Option<[u8; 4]>) -> bool {
    if needs.is_empty() || !fit_behind(needs, 511) || free > 511 {
        return false;
    }
    let header = needs[0].header;
    match (joins(free, needs), first) {
        (Some(slot), Some(bytes)) => header.with_slot(slot).bytes() == bytes,
        (None, None) => true,
        _ => false,
    }
}

#[test]
fn joined_in_the_least_slot(rt: HostRuntime) -> Result<(), Fail> {
    for case in &JOININGS {
        let needs = needs_of(rt.alloc(), case.frames)?;
        assert!(rt; join_so(&needs, case.free, case.first), "{}", case.name);
    }
    Ok(())
}
