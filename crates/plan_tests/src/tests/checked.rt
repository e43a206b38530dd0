//! Whether the planning functions may be called.
ghost use Rattle.std.specs.Prelude.{ℕ, ◌+◌, ◌≡◌, ◌<◌, ◌≤◌, AllPairs, All, IsTrue, length, slice_index, map};
ghost use Rattle.slot_plan.specs.Layouts.{HasLayout};
ghost use Rattle.slot_plan.specs.Parts.{own_frame, needs_in_parts, AreNeedsOfOneClass, ArePartsFeasible};
ghost use Rattle.slot_plan.specs.FreeBytes.{FitBehindFree, FitBehindWindow, CanJoinBehind};

use slot_plan::{Need, end_of, free_behind};

/// Whether each number is less than the next.
pub fn ascend(numbers: &[u32]) -> bool
    ensures { IsTrue result → AllPairs (λ m n. m < n) numbers.now }
{
    for at in 1..numbers.len() {
        if numbers[at - 1] >= numbers[at] {
            return false;
        }
    }
    true
}

/// Whether each place is below `count`.
pub fn are_within(places: &[u32], count: usize) -> bool
    ensures { IsTrue result → All (λ place. place < count) places.now }
{
    for place in places {
        if *place as usize >= count {
            return false;
        }
    }
    true
}

pub fn are_of_one_class(needs: &[Need]) -> bool
    requires { 0 < length needs.now }
    ensures { IsTrue result → AreNeedsOfOneClass needs.now }
{
    let class = needs[0].header.class();
    for need in needs {
        if !need.header.class().is_same(class) {
            return false;
        }
    }
    true
}

/// Whether the frames can be laid in their own slots after `before` free bytes.
pub fn fit(window: u32, before: u32, part: &[Need]) -> bool
    requires window { window ≤ 511 }
    requires before { before ≤ window }
    ensures { IsTrue result → HasLayout window before (map own_frame part.now) }
{
    let mut free = before;
    for need in part {
        let area = need.header.area();
        if need.bytes > free + area {
            return false;
        }
        free = free_behind(window, free, need.bytes, area);
    }
    true
}

/// Whether the frames are of one class and fit after `free` bytes, which are at most the window. Then what they
/// need and leave may be computed, and the slot in which they join frames that left no more than `free`.
pub fn fit_behind(needs: &[Need], free: u32) -> bool
    requires some { 0 < length needs.now }
    ensures free { IsTrue result → FitBehindFree free needs.now }
    ensures window { IsTrue result → FitBehindWindow needs.now }
    ensures join { IsTrue result → (left : ℕ) → left ≤ free → CanJoinBehind left needs.now }
{
    let class = needs[0].header.class();
    let window = class.window();
    if free > window {
        return false;
    }
    if !are_of_one_class(needs) {
        return false;
    }
    fit(window, free, needs)
}

/// Whether the frames of each part can be laid in their own slots after a whole window.
pub fn all_fit(window: u32, needs: &[Need], parts: &[u32]) -> bool
    requires window { window ≤ 511 }
    requires ascending { AllPairs (λ m n. m < n) parts.now }
    requires within { All (λ place. place < length needs.now) parts.now }
    ensures { IsTrue result → ArePartsFeasible window (needs_in_parts needs.now parts.now) }
{
    for (at, from) in parts.iter().enumerate() {
        if !fit(
            window,
            window,
            &needs[*from as usize..end_of(needs, parts, at)],
        ) {
            return false;
        }
    }
    true
}
