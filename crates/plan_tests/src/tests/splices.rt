//! What becomes of an input after another one, worked out by hand.
ghost use Rattle.std.specs.Prelude.{◌≡◌, IsTrue, IfSome};
ghost use Rattle.exact_span.specs.PlayedPositions.{AreCounted};
ghost use Rattle.seam_plan.specs.Decisions.{IsJoinableInput};

use crate::tests::asked::{Asked, STEREO, needs_of};
use crate::tests::checked::{are_of_one_class, fit, fit_behind};
use exact_span::Played;
use frame_header::Class;
use seam_plan::{FramePlace, Input, Joint, Run, Seam, front_left_out};
use slot_plan::Need;
use std::test::Fail;
use test_files::table;

/// MPEG-1, 44,100 Hz, 32 kbit/s, stereo: 104 bytes, area 68.
const LEAST_RATE: [u8; 4] = [0xff, 0xfb, 0x10, 0x00];
/// The same frame at 160 kbit/s: 522 bytes, area 486.
const HIGHER_RATE: [u8; 4] = [0xff, 0xfb, 0xa0, 0x00];
/// The same frame at 320 kbit/s: 1,044 bytes, area 1,008.
const LARGEST_RATE: [u8; 4] = [0xff, 0xfb, 0xe0, 0x00];

/// Frames that leave nothing after a whole window of 511 bytes: the third takes them and its own area.
const FULL: [Asked; 3] = [Asked(STEREO, 0), Asked(STEREO, 0), Asked(STEREO, 892)];
/// Two frames that are shared with the frames before, and
/// two more. The third has 19 bytes more than its area.
const SHARING: [Asked; 4] = [
    Asked(STEREO, 381),
    Asked(STEREO, 100),
    Asked(STEREO, 400),
    Asked(STEREO, 0),
];
/// The same, with a third frame that is larger than the largest area.
const TOO_LARGE: [Asked; 4] = [
    Asked(LARGEST_RATE, 0),
    Asked(LARGEST_RATE, 0),
    Asked(LARGEST_RATE, 1500),
    Asked(LARGEST_RATE, 0),
];
/// A lead-in, and a frame that needs 19 free bytes before it.
const LED: [Asked; 2] = [Asked(LEAST_RATE, 0), Asked(STEREO, 400)];
/// A frame like a lead-in, and one that needs no free bytes.
const UNLED: [Asked; 2] = [Asked(LEAST_RATE, 0), Asked(STEREO, 300)];

/// 1,152 of the positions of three frames, each of 1,152, are after the last played one.
const FIRST_PLAYED: Option<Played> = Some(Played {
    start: 1105,
    end: 2304,
});
/// With these, the first 2,304 positions are shared: two frames.
const SHARED: Option<Played> = Some(Played {
    start: 1152,
    end: 4608,
});
/// With these, the first 2,305 are, which aren't whole frames.
const UNEVEN: Option<Played> = Some(Played {
    start: 1153,
    end: 4608,
});

/// Whether played positions are as heads count them: players use delays of 529 to 4,624 samples, and at most 3,566 positions
/// are after the last played one.
fn are_counted(class: Class, frames: u32, played: Option<Played>) -> bool
    ensures { IsTrue result → IfSome played (AreCounted class frames) }
{
    let Some(played) = played else {
        return true;
    };
    if played.start < 529 || played.start > 4624 {
        return false;
    }
    played.rest(class, frames) <= 3566
}

/// Whether an input may be joined: its frames are of this class and fit with no free bytes before them, and its head
/// counts as heads do.
fn can_be_joined(class: Class, input: &Input<'_>) -> bool
    ensures { IsTrue result → IsJoinableInput class input.now }
{
    let needs = input.needs;
    if needs.is_empty() || needs.len() > 9 {
        return false;
    }
    if !needs[0].header.class().is_same(class) {
        return false;
    }
    if !are_of_one_class(needs) {
        return false;
    }
    if !are_counted(class, needs.len() as u32, input.played) {
        return false;
    }
    fit(class.window(), 0, needs)
}

/// What becomes of the second input, where the frames that have to be alike are or aren't.
fn decided(first: &Input<'_>, next: &Input<'_>, are_alike: bool) -> Option<Joint> {
    if first.needs.is_empty() {
        return None;
    }
    let class = first.needs[0].header.class();
    if !can_be_joined(class, first) || !can_be_joined(class, next) {
        return None;
    }
    let mut splice = Run::begin(class, first);
    let shared = splice.overlap(next);
    let alike = if are_alike { shared } else { None };
    Some(splice.join(1, next, alike))
}

/// An input after the one whose frames are `FULL`, and what becomes of it: the seam, and the header of its first frame that
/// isn't left out, in the slot in which it joins.
struct Case {
    name: &'static str,
    frames: &'static [Asked],
    blank: bool,
    played: Option<Played>,
    alike: bool,
    seam: Seam,
    first: [u8; 4],
}

static CASES: [Case; 7] = table! {
    Case { name, frames, blank, played, alike, seam, first }
    // With no free bytes, the 400 bytes of the third frame need an area of that size.
    ("it follows", &SHARING, false, SHARED, true, Seam::Follows(2), HIGHER_RATE)
    ("its frames aren't alike", &SHARING, false, SHARED, false, Seam::Whole, STEREO)
    ("it shares no whole frames", &SHARING, false, UNEVEN, true, Seam::Whole, STEREO)
    ("its head doesn't count", &SHARING, false, None, true, Seam::Whole, STEREO)
    ("the others can't join", &TOO_LARGE, false, SHARED, true, Seam::Whole, LARGEST_RATE)
    ("a lead-in", &LED, true, None, true, Seam::LeadIn, HIGHER_RATE)
    ("a lead-in that isn't wanted", &UNLED, true, None, true, Seam::Whole, LEAST_RATE)
};

/// Whether this is what becomes of the input.
fn is_so(first: &Input<'_>, next: &Input<'_>, case: &Case) -> bool {
    let Some(joint) = decided(first, next, case.alike) else {
        return false;
    };
    let at = joint.seam.left_out() as usize;
    if joint.seam != case.seam || at >= next.needs.len() {
        return false;
    }
    match joint.slot {
        Some(slot) => next.needs[at].header.with_slot(slot).bytes() == case.first,
        None => false,
    }
}

#[test]
fn inputs_behind_a_full_splice(rt: HostRuntime) -> Result<(), Fail> {
    let all = needs_of(rt.alloc(), &FULL)?;
    let first = Input {
        needs: &all,
        blank: false,
        played: FIRST_PLAYED,
    };
    for case in &CASES {
        let needs = needs_of(rt.alloc(), case.frames)?;
        let next = Input {
            needs: &needs,
            blank: case.blank,
            played: case.played,
        };
        assert!(rt; is_so(&first, &next, case), "{}", case.name);
    }
    Ok(())
}

/// Whether two frames are shared, and the second, frame 1, has to be alike: it is compared with the last frame of the splice,
/// frame 2 of the first input. The splice has no more than three frames.
fn two_are_shared(first: &Input<'_>, next: &Input<'_>) -> bool {
    if first.needs.is_empty() {
        return false;
    }
    let class = first.needs[0].header.class();
    if !can_be_joined(class, first) || !can_be_joined(class, next) {
        return false;
    }
    let splice = Run::begin(class, first);
    let Some(overlap) = splice.overlap(next) else {
        return false;
    };
    let last = FramePlace { input: 0, frame: 2 };
    overlap.frames == 2
        && overlap.first_alike == 1
        && splice.last(1) == Some(&[last])
        && splice.last(4).is_none()
}

#[test]
fn frames_that_are_shared(rt: HostRuntime) -> Result<(), Fail> {
    let all = needs_of(rt.alloc(), &FULL)?;
    let needs = needs_of(rt.alloc(), &SHARING)?;
    let first = Input {
        needs: &all,
        blank: false,
        played: FIRST_PLAYED,
    };
    let next = Input {
        needs: &needs,
        blank: false,
        played: SHARED,
    };
    assert!(rt; two_are_shared(&first, &next));
    Ok(())
}

/// How many frames leave the front of a splice of the frames of one input.
fn left_at_front(needs: &[Need], blank: bool) -> u32 {
    let first = Input {
        needs,
        blank,
        played: None,
    };
    if needs.len() < 2 || !fit_behind(needs, 0) || !fit_behind(&needs[1..], 511) {
        return 9;
    }
    front_left_out(&first, needs)
}

#[test]
fn lead_in_of_the_first_input(rt: HostRuntime) -> Result<(), Fail> {
    let led = needs_of(rt.alloc(), &LED)?;
    let unled = needs_of(rt.alloc(), &UNLED)?;
    assert!(rt; left_at_front(&led, true) == 1, "one that is wanted");
    assert!(rt;
        left_at_front(&led, false) == 0,
        "side information that isn't blank"
    );
    assert!(rt; left_at_front(&unled, true) == 0, "one that isn't wanted");
    Ok(())
}
