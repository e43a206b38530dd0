//! Frames that are lost when the head is set apart, and lost frames in the form in which they are
//! written.
ghost use Rattle.std.specs.Prelude.{◌≡◌, ◌≤◌, ◌||◌, false, map};
ghost use Rattle.side_info.specs.Side.{no_side};
ghost use Rattle.sync_survey.specs.Faults.{survey_view};
ghost use Rattle.sync_survey.specs.MainData.{is_silent, points_too_far};
ghost use Rattle.sync_survey.specs.HeadApart.{apart_rows, head_apart, emptied_row, emptied_survey};

use crate::rows::Row;
use crate::surveys::Survey;
use side_info::{Extent, FrameFront, Side};

/// Marks the frame as lost if its main_data_begin is greater than `areas`, the length in bytes of
/// the areas before it. Returns whether it is or the frame is silent, so that a later frame may be
/// lost too.
fn mark_apart(areas: u64, row: &mut Row) -> bool
    ensures row { row.new ≡ record row.old { lost = row.old.lost || points_too_far areas row.old } }
    ensures empty { result ≡ (is_silent row.old || points_too_far areas row.old) }
    ensures near { row.old.side.main_data_begin ≤ 65535 }
{
    let Extent { begin, bits } = row.extent();
    let lost = areas < u64::from(begin);
    if lost {
        row.mark(true);
    }
    bits == 0 || lost
}

/// Marks the frames that are lost without a head.
fn mark_rows(rows: &mut [Row])
    ensures { rows.new ≡ apart_rows rows.old }
{
    let mut areas: u64 = 0;
    for row in rows.iter_mut() {
        if !mark_apart(areas, row) {
            break;
        }
        // The sum may stop at the greatest number: main data begin at most 511 bytes back.
        areas = areas.saturating_add(u64::from(row.header().area()));
    }
}

/// Makes the frame an empty one.
// A function of its own, so that the loop over the frames is short.
#[inline(never)]
fn empty_row(row: &mut Row)
    ensures { row.new ≡ record row.old { side = no_side; lost = false } }
{
    let front = FrameFront::new(&row.header(), &Side::empty());
    *row = Row::new(row.offset(), false, front);
}

/// Makes the frame an empty one if it is lost.
fn empty_if_lost(row: &mut Row)
    ensures { row.new ≡ emptied_row row.old }
{
    if row.lost() {
        empty_row(row);
    }
}

/// Makes each lost frame an empty one.
fn empty_rows(rows: &mut [Row])
    ensures { rows.new ≡ map emptied_row rows.old }
{
    for row in rows.iter_mut() {
        empty_if_lost(row);
    }
}

impl Survey {
    /// Sets the head apart, as players do: also marks as lost each frame whose main data begin
    /// before the areas of the frames before it, not counting the head's, if each of these frames
    /// is silent or lost in this sense. Without a head no frame is marked. Nothing else changes,
    /// and it takes no memory.
    pub fn head_apart(&mut self)
        ensures { survey_view self.new ≡ head_apart (survey_view self.old) }
    {
        if self.head.is_some() {
            mark_rows(self.frames.as_mut_slice());
        }
    }

    /// Makes each lost frame one without main data, whose side information is all 0 and which isn't
    /// lost, so that the frames can be laid out with the head before them (`heads_apart_are_laid`).
    /// Nothing else changes, and it takes no memory.
    pub fn empty_lost(&mut self)
        ensures { survey_view self.new ≡ emptied_survey (survey_view self.old) }
    {
        empty_rows(self.frames.as_mut_slice());
    }
}
