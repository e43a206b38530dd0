//! The least sums, and the places of the areas that have them, from the last frame back to the
//! first.
ghost use Rattle.std.specs.Prelude.{◌≡◌, ◌≤◌, [], length, IfOk};
ghost use Rattle.frame_header.specs.Tables.{class_of};
ghost use Rattle.slot_plan.specs.Parts.{AreNeedsOfClass};
ghost use Rattle.best_plan.specs.Table.{AreAreasOf, IsTableEnd, IsTable};
ghost use Rattle.frame_header.specs.Limits.{most_back};

use crate::choice::areas_among;
use crate::rows::{Sums, append_frame};
use arrayvec::ArrayVec;
use slot_plan::{Lengths, Need, Policy};
use std::alloc::{AllocError, Global};

/// The choices of all frames, for each number of free bytes before them.
#[derive(Drop)]
pub(crate) struct Table {
    /// The least sums from the first frame on, by the bytes that are free before it.
    pub(crate) sums: Vec<u32>,
    /// The places of the areas, by the bytes that are free before the frame, the last frame's
    /// first.
    pub(crate) places: Vec<u8>,
}

/// The sums after the last frame, which are 0.
///
/// # Errors
/// If memory runs out.
fn no_areas(alloc: Global, window: u32) -> Result<Vec<u32>, AllocError>
    requires window { window ≤ most_back }
    ensures { IfOk result (λ sums. IsTableEnd window sums.items []) }
{
    let mut sums = Vec::with_capacity(alloc, window as usize + 1)?;
    for _ in 0..window + 1 {
        sums.push(0)?;
    }
    Ok(sums)
}

/// The areas among which a frame chooses, in bytes.
fn areas_of<P: Policy>(need: &Need, policy: &P, lengths: &Lengths) -> ArrayVec<u32, 28>
    requires class { lengths.now ≡ class_of need.now.header }
    ensures { AreAreasOf (P.choices_of policy.now) need.now result.items }
{
    let choices = policy.choices(&need.header);
    areas_among(lengths, need.header.protected, choices.as_slice())
}

/// The table of these frames. All its memory is taken first.
///
/// # Errors
/// If memory runs out.
pub(crate) fn table_of<P: Policy>(
    alloc: Global,
    window: u32,
    needs: &[Need],
    policy: &P,
    lengths: &Lengths,
) -> Result<Table, AllocError>
    requires class { AreNeedsOfClass lengths.now needs.now }
    requires window { window ≤ most_back }
    requires few { length needs.now ≤ 200000 }
    ensures { IfOk result (λ t. IsTable window
        (P.choices_of policy.now) needs.now t.sums.items t.places.items) }
{
    let width = window as usize + 1;
    let mut places = Vec::with_capacity(alloc, needs.len() * width)?;
    let spare = Vec::with_capacity(alloc, width)?;
    let by_free = no_areas(alloc, window)?;
    let mut sums = Sums {
        by_free,
        spare,
        even: false,
        near: None,
    };
    for i in (0..needs.len()).rev() {
        let need = &needs[i];
        let areas = areas_of(need, policy, lengths);
        append_frame(window, need.bytes, areas.as_slice(), &mut sums, &mut places)?;
    }
    Ok(Table {
        sums: sums.by_free,
        places,
    })
}
