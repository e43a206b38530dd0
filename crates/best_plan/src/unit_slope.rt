//! Rows of sums in which each free byte saves one byte of areas. For the frame before such a row,
//! the first area that has room is the best, and the frame's row with this area is such a row too.
ghost use Rattle.std.specs.Prelude.{◌≡◌, ◌+◌, ◌-◌, ◌<◌, ◌≤◌, ◌↔◌, All, AllPairs, IsTrue, length, map, slice_index, IfOk};
ghost use Rattle.best_plan.specs.Rows.{nothing, HasUnitSlope, HasWindowRoom, IsEndAt, AppendsFirstAreas};
ghost use Rattle.frame_header.specs.Limits.{most_back, most_frame_length};

use std::alloc::AllocError;

/// Whether each free byte saves one byte of areas.
pub(crate) fn has_unit_slope(sums: &[u32]) -> bool
    requires some { 0 < length sums.now }
    requires few { length sums.now ≤ 512 }
    ensures { IsTrue result ↔ HasUnitSlope sums.now }
{
    let whole = u64::from(sums[0]);
    for (free, sum) in sums.iter().enumerate() {
        if u64::from(*sum) + free as u64 != whole {
            return false;
        }
    }
    true
}

/// Whether the first area with which `bytes` bytes of main data fit never leaves more than the
/// window, whatever is free before it.
pub(crate) fn has_window_room(window: u32, bytes: u32, areas: &[u32]) -> bool
    requires window { window ≤ most_back }
    requires areas { All (λ n. n ≤ most_frame_length) areas.now }
    ensures { IsTrue result → HasWindowRoom window bytes areas.now }
{
    if areas.is_empty() || bytes < areas[0] || areas[areas.len() - 1] < bytes {
        return false;
    }
    for place in 1..areas.len() {
        if areas[place - 1] + window < areas[place] {
            return false;
        }
    }
    true
}

/// Up to which number of free bytes, not included, the areas before this place are too small; at
/// most the window and 1.
pub(crate) fn end_at(window: u32, bytes: u32, areas: &[u32], place: usize) -> u32
    requires window { window ≤ most_back }
    requires place { place ≤ length areas.now }
    requires ascending { AllPairs (λ m n. m < n) areas.now }
    ensures { IsEndAt window bytes areas.now place result }
{
    if place == 0 {
        return window + 1;
    }
    bytes.saturating_sub(areas[place - 1]).min(window + 1)
}

/// Appends the place of the first area with which `bytes` bytes of main data fit, for each number
/// of free bytes.
///
/// # Errors
/// If memory runs out.
pub(crate) fn append_first_areas(
    window: u32,
    bytes: u32,
    areas: &[u32],
    places: &mut Vec<u8>,
) -> Result<(), AllocError>
    requires window { window ≤ most_back }
    requires few { length areas.now ≤ 28 }
    requires ascending { AllPairs (λ m n. m < n) areas.now }
    requires room { HasWindowRoom window bytes areas.now }
    ensures { IfOk result (λ _. AppendsFirstAreas window bytes areas.now places.old.items
        places.new.items) }
{
    let from = places.len();
    for place in (0..areas.len()).rev() {
        let end = end_at(window, bytes, areas, place);
        places.resize(from + end as usize, place as u8)?;
    }
    Ok(())
}

/// Adds `bytes` to each sum.
pub(crate) fn add_to_all(sums: &mut [u32], bytes: u32)
    requires { All (λ n. n + bytes < nothing) sums.old }
    ensures { sums.new ≡ map (λ n. n + bytes) sums.old }
{
    for sum in sums.iter_mut() {
        *sum += bytes;
    }
}
