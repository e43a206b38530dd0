//! How a part of a file joins the parts before it, worked out by hand.
ghost use Rattle.std.specs.Prelude.{IsTrue};
ghost use Rattle.seam_plan.specs.PartSplices.{IsPartNeeds};

use crate::tests::asked::{Asked, PROTECTED, STEREO, needs_of};
use crate::tests::checked::{are_of_one_class, fit};
use frame_header::Class;
use seam_plan::{PartJoint, PartSplice};
use slot_plan::Need;
use std::test::Fail;
use test_files::table;

/// MPEG-1, 44,100 Hz, 320 kbit/s, stereo: 1,044 bytes, area 1,008.
const LARGEST_RATE: [u8; 4] = [0xff, 0xfb, 0xe0, 0x00];
/// The same frame, padded: area 1,009.
const LARGEST: [u8; 4] = [0xff, 0xfb, 0xe2, 0x00];

/// Frames that leave 11 bytes after a whole window of 511 bytes.
const NEARLY_FULL: [Asked; 3] = [Asked(STEREO, 0), Asked(STEREO, 0), Asked(STEREO, 881)];
/// Large frames that leave 9 bytes after it.
const LARGE_FRAMES: [Asked; 2] = [Asked(LARGEST_RATE, 0), Asked(LARGEST_RATE, 1510)];
/// A large frame that wants 92 bytes before it.
const WANTING: [Asked; 1] = [Asked(LARGEST_RATE, 1100)];

/// The header of the first frame of a part in its slot, or of the lead-in before it.
#[derive(Clone, Copy, PartialEq)]
enum Wanted {
    First([u8; 4]),
    Led([u8; 4]),
}

/// A part after another one, and how it joins.
struct Case {
    name: &'static str,
    first: &'static [Asked],
    next: &'static [Asked],
    wanted: Wanted,
}

static CASES: [Case; 9] = table! {
    Case { name, first, next, wanted }
    ("its own slot", &NEARLY_FULL, &[Asked(STEREO, 392)], Wanted::First(STEREO))
    // 382 bytes are missing, the area of 128 kbit/s padded.
    ("a byte more", &NEARLY_FULL, &[Asked(STEREO, 393)], Wanted::First([0xff, 0xfb, 0x92, 0x00]))
    // 485 bytes are missing, and 160 kbit/s has area 486.
    ("a greater slot", &NEARLY_FULL, &[Asked(STEREO, 496)], Wanted::First([0xff, 0xfb, 0xa0, 0x00]))
    // The first fits, but the second wants 115 bytes, and 11 are left.
    ("a slot for the second", &NEARLY_FULL, &[Asked(STEREO, 381), Asked(STEREO, 496)], Wanted::First([0xff, 0xfb, 0xa0, 0x00]))
    // 382 bytes are missing. With a check word 128 kbit/s padded has area 380, and 160 has 484.
    ("with a check word", &NEARLY_FULL, &[Asked(PROTECTED, 393)], Wanted::First([0xff, 0xfa, 0xa0, 0x00]))
    // 1,009 bytes are missing, the largest area.
    ("the largest slot", &LARGE_FRAMES, &[Asked(LARGEST_RATE, 1018)], Wanted::First(LARGEST))
    // 40 kbit/s has area 94.
    ("no slot is enough", &LARGE_FRAMES, &WANTING, Wanted::Led([0xff, 0xfb, 0x20, 0x00]))
    // It wants 11 bytes, and 9 are left. 32 kbit/s has area 68, and is the least.
    ("a byte more than the largest", &LARGE_FRAMES, &[Asked(LARGEST_RATE, 1019)], Wanted::Led([0xff, 0xfb, 0x10, 0x00]))
    // The lead-in has no check word.
    ("a lead-in before a check word", &LARGE_FRAMES, &[Asked([0xff, 0xfa, 0xe0, 0x00], 1100)], Wanted::Led([0xff, 0xfb, 0x20, 0x00]))
};

/// Whether these are the frames of a part: there is one, they are of this class, and fit after a whole window.
fn is_part(class: Class, needs: &[Need]) -> bool
    ensures { IsTrue result → IsPartNeeds class needs.now }
{
    if needs.is_empty() {
        return false;
    }
    if !needs[0].header.class().is_same(class) {
        return false;
    }
    if !are_of_one_class(needs) {
        return false;
    }
    let window = class.window();
    fit(window, window, needs)
}

fn is_joint(joint: &PartJoint, needs: &[Need], wanted: Wanted) -> bool {
    if needs.is_empty() {
        return false;
    }
    match joint {
        PartJoint::InSlot(slot) => {
            wanted == Wanted::First(needs[0].header.with_slot(*slot).bytes())
        }
        PartJoint::Led(header) => wanted == Wanted::Led(header.bytes()),
    }
}

/// Whether the part joins so.
fn joins_so(first: &[Need], next: &[Need], wanted: Wanted) -> bool {
    if first.is_empty() {
        return false;
    }
    let class = first[0].header.class();
    if !is_part(class, first) || !is_part(class, next) {
        return false;
    }
    let mut splice = PartSplice::begin(class, first);
    is_joint(&splice.join(next), next, wanted)
}

#[test]
fn parts_behind_a_part(rt: HostRuntime) -> Result<(), Fail> {
    for case in &CASES {
        let first = needs_of(rt.alloc(), case.first)?;
        let next = needs_of(rt.alloc(), case.next)?;
        assert!(rt; joins_so(&first, &next, case.wanted), "{}", case.name);
    }
    Ok(())
}

/// Whether the last part joins so, after two others.
fn joins_third(first: &[Need], second: &[Need], third: &[Need], wanted: Wanted) -> bool {
    if first.is_empty() {
        return false;
    }
    let class = first[0].header.class();
    if !is_part(class, first) || !is_part(class, second) || !is_part(class, third) {
        return false;
    }
    let mut splice = PartSplice::begin(class, first);
    splice.join(second);
    is_joint(&splice.join(third), third, wanted)
}

/// With the 94 bytes of the lead-in 103 are free before the second part, which takes 92 of them.
#[test]
fn a_part_behind_a_lead_in(rt: HostRuntime) -> Result<(), Fail> {
    let first = needs_of(rt.alloc(), &LARGE_FRAMES)?;
    let second = needs_of(rt.alloc(), &WANTING)?;
    let own = needs_of(rt.alloc(), &[Asked(LARGEST_RATE, 1019)])?;
    let more = needs_of(rt.alloc(), &[Asked(LARGEST_RATE, 1020)])?;
    assert!(rt; joins_third(&first, &second, &own, Wanted::First(LARGEST_RATE)));
    assert!(rt; joins_third(&first, &second, &more, Wanted::First(LARGEST)));
    Ok(())
}

/// The first frame of the second part has 486 bytes in its slot, so that the second part leaves 1 byte.
#[test]
fn a_part_behind_a_greater_slot(rt: HostRuntime) -> Result<(), Fail> {
    let first = needs_of(rt.alloc(), &NEARLY_FULL)?;
    let second = needs_of(rt.alloc(), &[Asked(STEREO, 381), Asked(STEREO, 496)])?;
    let own = needs_of(rt.alloc(), &[Asked(STEREO, 382)])?;
    let more = needs_of(rt.alloc(), &[Asked(STEREO, 383)])?;
    assert!(rt; joins_third(&first, &second, &own, Wanted::First(STEREO)));
    assert!(rt;
        joins_third(
            &first,
            &second,
            &more,
            Wanted::First([0xff, 0xfb, 0x92, 0x00])
        )
    );
    Ok(())
}
