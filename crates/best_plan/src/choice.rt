//! The choice, among the areas of one frame, with which it and all frames after it have the fewest
//! bytes.
ghost use Rattle.std.specs.Prelude.{◌≡◌, ◌+◌, ◌<◌, ◌≤◌, All, AllPairs, length};
ghost use Rattle.slot_plan.specs.Parts.{slot_areas};
ghost use Rattle.best_plan.specs.Rows.{AreAreasAndSums, AreBounds, AreAreasTooSmall, AreKnownBounds, IsSum, IsAreaChoice};
ghost use Rattle.frame_header.specs.Limits.{most_back, most_frame_length};

use arrayvec::ArrayVec;
use frame_header::Slot;
use slot_plan::{Lengths, free_behind};

/// The sum if no list of areas fits, in bytes. No list has a sum as large.
pub(crate) const NOTHING: u32 = u32::MAX;

/// The least sum of areas from a frame on, in bytes, and the place of the frame's area in its list.
#[derive(Clone, Copy)]
pub(crate) struct AreaChoice {
    pub(crate) sum: u32,
    pub(crate) place: u8,
}

/// What a row of choices is made from: at most how many bytes are free before the frame, how many
/// bytes of main data it has, the areas among which it chooses, and the least sums of the frames
/// after it, by the bytes that are free before them.
#[derive(Clone, Copy)]
pub(crate) struct ChoiceRow<'a> {
    pub(crate) window: u32,
    pub(crate) bytes: u32,
    pub(crate) areas: &'a [u32],
    pub(crate) later: &'a [u32],
}

/// What is known before the areas of a frame are tried: the areas before the place `from` are too
/// small, no later sum is less than `alone`, and no later sum together with the bytes that are free
/// before it is less than `together`.
#[derive(Clone, Copy)]
pub(crate) struct SumBounds {
    pub(crate) from: usize,
    pub(crate) alone: u32,
    pub(crate) together: u32,
}

/// The areas of some slots, in bytes.
pub(crate) fn areas_among(lengths: &Lengths, protected: bool, slots: &[Slot]) -> ArrayVec<u32, 28>
    requires { length slots.now ≤ 28 }
    ensures areas { result.items ≡ slot_areas lengths.now protected slots.now }
    ensures most { All (λ n. n ≤ most_frame_length) result.items }
{
    let mut areas = ArrayVec::new();
    for slot in slots {
        areas.push(lengths.area_of(*slot, protected));
    }
    areas
}

/// The sum of an area and of the least sum after it, `NOTHING` if the main data don't fit.
fn sum_behind(window: u32, free: u32, bytes: u32, area: u32, later: &[u32]) -> u32
    requires window { window ≤ most_back }
    requires free { free ≤ window }
    requires area { area ≤ most_frame_length }
    requires later { length later.now ≡ window + 1 }
    ensures { IsSum window free bytes area later.now result }
{
    if free + area < bytes {
        return NOTHING;
    }
    let behind = free_behind(window, free, bytes, area);
    area.saturating_add(later[behind as usize])
}

/// The greatest bounds of a row of sums; no area is known to be too small.
pub(crate) fn bounds_of(later: &[u32]) -> SumBounds
    requires { length later.now ≤ 512 }
    ensures bounds { AreBounds later.now result.alone result.together }
    ensures from { result.from ≡ 0 }
{
    let mut known = SumBounds {
        from: 0,
        alone: NOTHING,
        together: NOTHING,
    };
    for (free, sum) in later.iter().enumerate() {
        known = SumBounds {
            from: 0,
            alone: known.alone.min(*sum),
            together: known.together.min(sum.saturating_add(free as u32)),
        };
    }
    known
}

/// The place before which all areas are too small and from which on none is, found from `from`, a
/// place before which all areas were too small after fewer free bytes.
pub(crate) fn too_small(free: u32, bytes: u32, areas: &[u32], from: usize) -> usize
    requires free { free ≤ most_back }
    requires areas { All (λ n. n ≤ most_frame_length) areas.now }
    requires ascending { AllPairs (λ m n. m < n) areas.now }
    requires from { from ≤ length areas.now }
    ensures { AreAreasTooSmall free bytes areas.now from result }
{
    for place in (0..from).rev() {
        let area = areas[place];
        if free + area < bytes {
            return place + 1;
        }
    }
    0
}

/// The first of the areas with the least sum after `free` free bytes. `later` has the least sums of
/// the frames after this one, by the bytes that are free before them. The search stops at the first
/// area from which on none can be better.
pub(crate) fn best_choice(
    window: u32,
    free: u32,
    bytes: u32,
    areas: &[u32],
    later: &[u32],
    known: SumBounds,
) -> AreaChoice
    requires row { AreAreasAndSums window areas.now later.now }
    requires free { free ≤ window }
    requires known { AreKnownBounds free bytes areas.now later.now known }
    ensures { IsAreaChoice window free bytes areas.now later.now result.sum result.place }
{
    let mut choice = AreaChoice {
        sum: NOTHING,
        place: 0,
    };
    for place in known.from..areas.len() {
        let area = areas[place];
        // Areas from here on have at least this sum.
        if choice.sum <= area.saturating_add(known.alone) {
            return choice;
        }
        // From here on, no sum together with the free bytes is less than the main data and
        // `together`.
        if u64::from(choice.sum) + u64::from(free) <= u64::from(bytes) + u64::from(known.together) {
            return choice;
        }
        let sum = sum_behind(window, free, bytes, area, later);
        if sum < choice.sum {
            choice = AreaChoice {
                sum,
                place: place as u8,
            };
        }
    }
    choice
}
