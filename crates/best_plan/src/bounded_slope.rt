//! Rows in which each free byte saves at most one byte of areas. For the frame before such a row,
//! the first area that leaves enough free bytes for the frames after it is the best.
ghost use Rattle.std.specs.Prelude.{◌≡◌, ℕ, ◌+◌, ◌<◌, ◌≤◌, length, slice_index, IfOk, IfSome};
ghost use Rattle.best_plan.specs.Rows.{nothing, AddsRow, AreAreasAndSums, AreRows, AreSums, HasSlopeAtMostOne};
ghost use Rattle.frame_header.specs.Limits.{most_back, most_frame_length};

use crate::choice::{ChoiceRow, NOTHING};
use crate::unit_slope::end_at;
use std::alloc::AllocError;

/// How many free bytes are too few for any list: with fewer than the returned number there is no
/// sum.
fn too_few(sums: &[u32]) -> usize
    ensures within { result ≤ length sums.now }
    ensures none { (free : ℕ) → free < result → slice_index sums.now free ≡ nothing }
{
    for free in 0..sums.len() {
        if sums[free] != NOTHING {
            return free;
        }
    }
    sums.len()
}

/// The number of free bytes from which on each saves at most one byte of areas. Fewer are too few
/// for any list.
pub(crate) fn bounded_slope_start(sums: &[u32]) -> Option<u32>
    requires few { length sums.now ≤ 512 }
    ensures { IfSome result (λ least. HasSlopeAtMostOne sums.now least) }
{
    let least = too_few(sums);
    for free in least + 1..sums.len() {
        if sums[free].saturating_add(1) < sums[free - 1] {
            return None;
        }
    }
    Some(least as u32)
}

/// Writes that there is no sum for fewer than `end` free bytes.
fn write_none(end: usize, sums: &mut [u32])
    requires within { end ≤ length sums.old }
    ensures width { length sums.new ≡ length sums.old }
    ensures none { (free : ℕ) → free < end → slice_index sums.new free ≡ nothing }
{
    for free in 0..end {
        sums[free] = NOTHING;
    }
}

/// Writes the sums of an area and of the least sum after it, for `start` up to `end` free bytes,
/// `end` not included.
fn write_sums(row: ChoiceRow<'_>, area: u32, start: usize, end: usize, sums: &mut [u32])
    requires rows { AreRows row.window row.later.now sums.old }
    requires area { area ≤ most_frame_length }
    requires end { end ≤ row.window + 1 }
    requires fits { start < end → row.bytes ≤ start + area }
    ensures { AreSums row.entry.window row.entry.bytes area row.entry.later.now start end sums.old
        sums.new }
{
    if end <= start {
        return;
    }
    let window = row.window as usize;
    let bytes = row.bytes as usize;
    let later = row.later;
    // From `full` free bytes on, the whole window is free after the area.
    let full = (window + bytes)
        .saturating_sub(area as usize)
        .max(start)
        .min(end);
    for free in start..full {
        sums[free] = area.saturating_add(later[free + area as usize - bytes]);
    }
    let last = area.saturating_add(later[window]);
    for more in full..end {
        sums[more] = last;
    }
}

/// Appends the row of a frame, before one in which each free byte from `least` on saves at most
/// one.
pub(crate) fn append_bounded_slope(
    row: ChoiceRow<'_>,
    least: u32,
    sums: &mut Vec<u32>,
    places: &mut Vec<u8>,
) -> Result<(), AllocError>
    requires row { AreAreasAndSums row.window row.areas.now row.later.now }
    requires near { HasSlopeAtMostOne row.later.now least }
    ensures { IfOk result (λ _. AddsRow row.entry sums.new.items places.old.items
        places.new.items) }
{
    let ChoiceRow {
        window,
        bytes,
        areas,
        ..
    } = row;
    let wanted = bytes.saturating_add(least);
    let from = places.len();
    sums.resize(window as usize + 1, NOTHING)?;
    let mut start = end_at(window, wanted, areas, areas.len()) as usize;
    write_none(start, sums.as_mut_slice());
    places.resize(from + start, 0)?;
    for place in (0..areas.len()).rev() {
        let end = end_at(window, wanted, areas, place) as usize;
        write_sums(row, areas[place], start, end, sums.as_mut_slice());
        places.resize(from + end, place as u8)?;
        start = end;
    }
    Ok(())
}
