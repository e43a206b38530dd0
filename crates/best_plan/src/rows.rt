//! The choices of one frame, for each number of free bytes before it.
ghost use Rattle.std.specs.Prelude.{◌+◌, ◌<◌, slice_index, IfOk, IfSome};
ghost use Rattle.best_plan.specs.Rows.{nothing, AddsRow, AppendsRow, AreAreasAndSums, AreKnownSlopes, HasWindowRoom, HasUnitSlope, HasSlopeAtMostOne};

use crate::bounded_slope::{append_bounded_slope, bounded_slope_start};
use crate::choice::{ChoiceRow, NOTHING, SumBounds, best_choice, bounds_of, too_small};
use crate::unit_slope::{add_to_all, append_first_areas, has_unit_slope, has_window_room};
use std::alloc::AllocError;
use std::mem::swap;

/// The least sums of areas from a frame on, in bytes.
#[derive(Drop)]
pub(crate) struct Sums {
    /// By the bytes that are free before the frame.
    pub(crate) by_free: Vec<u32>,
    /// Memory for the sums of the frame before it.
    pub(crate) spare: Vec<u32>,
    /// Whether it is known that each free byte saves one byte of areas.
    pub(crate) even: bool,
    /// If it is known that from some number of free bytes on each saves at most one byte of areas,
    /// that number.
    pub(crate) near: Option<u32>,
}

/// Appends a row, by trying the areas for each number of free bytes.
///
/// # Errors
/// If memory runs out.
fn append_row(
    row: ChoiceRow<'_>,
    sums: &mut Vec<u32>,
    places: &mut Vec<u8>,
) -> Result<(), AllocError>
    requires row { AreAreasAndSums row.window row.areas.now row.later.now }
    ensures { IfOk result (λ _. AddsRow row.entry sums.new.items places.old.items
        places.new.items) }
{
    let bounds = bounds_of(row.later);
    let mut from = row.areas.len();
    sums.clear();
    for free in 0..row.window + 1 {
        from = too_small(free, row.bytes, row.areas, from);
        let known = SumBounds {
            from,
            alone: bounds.alone,
            together: bounds.together,
        };
        let choice = best_choice(row.window, free, row.bytes, row.areas, row.later, known);
        sums.push(choice.sum)?;
        places.push(choice.place)?;
    }
    Ok(())
}

/// Appends the row of a frame, by the first areas that leave enough if each free byte saves at most
/// one byte of areas.
///
/// # Errors
/// If memory runs out.
fn append_next(
    row: ChoiceRow<'_>,
    near: Option<u32>,
    sums: &mut Vec<u32>,
    places: &mut Vec<u8>,
) -> Result<(), AllocError>
    requires row { AreAreasAndSums row.window row.areas.now row.later.now }
    requires near { IfSome near (λ least. HasSlopeAtMostOne row.later.now least) }
    ensures { IfOk result (λ _. AddsRow row.entry sums.new.items places.old.items
        places.new.items) }
{
    match near {
        Some(least) => append_bounded_slope(row, least, sums, places),
        None => append_row(row, sums, places),
    }
}

/// Appends the row of a frame whose main data have room, before one in which each free byte saves
/// one byte of areas.
///
/// # Errors
/// If memory runs out.
fn append_unit_slope(
    window: u32,
    bytes: u32,
    areas: &[u32],
    sums: &mut [u32],
    places: &mut Vec<u8>,
) -> Result<(), AllocError>
    requires row { AreAreasAndSums window areas.now sums.old }
    requires even { HasUnitSlope sums.old }
    requires room { HasWindowRoom window bytes areas.now }
    requires small { slice_index sums.old 0 + bytes < nothing }
    ensures row { IfOk result (λ _. AppendsRow window bytes areas.now sums.old sums.new
        places.old.items places.new.items) }
    ensures even { IfOk result (λ _. HasUnitSlope sums.new) }
{
    append_first_areas(window, bytes, areas, places)?;
    add_to_all(sums, bytes);
    Ok(())
}

/// Appends the places of a frame's row, and replaces the sums of the frame after it by the sums of
/// that row.
///
/// # Errors
/// If memory runs out.
pub(crate) fn append_frame(
    window: u32,
    bytes: u32,
    areas: &[u32],
    sums: &mut Sums,
    places: &mut Vec<u8>,
) -> Result<(), AllocError>
    requires row { AreAreasAndSums window areas.now sums.old.by_free.items }
    requires known { AreKnownSlopes sums.old }
    ensures row { IfOk result (λ _. AppendsRow window bytes areas.now sums.old.by_free.items
        sums.new.by_free.items places.old.items places.new.items) }
    ensures known { IfOk result (λ _. AreKnownSlopes sums.new) }
{
    if sums.even && sums.by_free[0] < NOTHING - bytes && has_window_room(window, bytes, areas) {
        append_unit_slope(window, bytes, areas, &mut sums.by_free, places)?;
        sums.near = Some(0);
        return Ok(());
    }
    let row = ChoiceRow {
        window,
        bytes,
        areas,
        later: sums.by_free.as_slice(),
    };
    append_next(row, sums.near, &mut sums.spare, places)?;
    swap(&mut sums.by_free, &mut sums.spare);
    sums.even = has_unit_slope(sums.by_free.as_slice());
    sums.near = bounded_slope_start(sums.by_free.as_slice());
    Ok(())
}
