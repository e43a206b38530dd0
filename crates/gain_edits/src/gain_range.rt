//! The first gain that would leave its range.
ghost use Rattle.std.specs.Prelude.{◌≡◌, ◌<◌, ◌^◌, length};
ghost use Rattle.frame_header.specs.Tables.{class_of};
ghost use Rattle.sync_survey.specs.Faults.{survey_view};
ghost use Rattle.sync_survey.specs.Survey.{IsSurveyLaidOut};
ghost use Rattle.moved_gains.specs.Gains.{side_out_of_range};
ghost use Rattle.moved_gains.specs.Moving.{AreFramesOfClass};
ghost use Rattle.moved_gains.specs.Course.{constant_steps, steps_at_offset, AreRowsNumbered};
ghost use Rattle.moved_gains.specs.Edited.{row_out_of_range};
ghost use Rattle.gain_edits.specs.GainRange.{out_of_range_refusal, range_fault};

use commands::Refusal;
use frame_header::{Class, Version};
use moved_gains::{Course, OutOfRange, first_out_of_range};
use requests::Steps;
use sync_survey::{Row, Survey};

/// The refusal for a gain that would leave the range, with the offset in bytes of its frame.
fn fault_at(offset: u32, stuck: Option<OutOfRange>) -> Option<Refusal>
    ensures { result ≡ out_of_range_refusal offset stuck }
{
    let stuck = stuck?;
    Some(Refusal::GainRange(u64::from(offset), stuck.granule, stuck.channel, stuck.gain))
}

/// The first gain of a frame of this class that would leave the range from 0 to 255.
#[inline(always)]
fn out_of_range_in_class(class: Class, steps: &Steps, row: &Row) -> Option<OutOfRange>
    requires { class_of row.now.header ≡ class }
    ensures { result ≡ side_out_of_range steps.now row.now.side }
{
    first_out_of_range(steps, &row.front().side_in(class))
}

/// As `out_of_range_in_class`, but a lost frame has none, since it isn't changed. In MPEG-1 with
/// two channels, the most frequent class, the compiler knows the places of the gains.
#[inline(always)]
fn out_of_range_in_row(class: Class, steps: &Steps, row: &Row) -> Option<OutOfRange>
    requires { class_of row.now.header ≡ class }
    ensures { result ≡ row_out_of_range steps.now row.now }
{
    if row.lost() {
        return None;
    }
    match (class.version, class.channels) {
        (Version::One, 2) => {
            let stereo = Class {
                version: Version::One,
                frequency_index: class.frequency_index,
                channels: 2,
            };
            out_of_range_in_class(stereo, steps, row)
        }
        _ => out_of_range_in_class(class, steps, row),
    }
}

/// The first gain of these frames of one class that would leave the range.
fn first_fault(course: &Course, class: Class, rows: &[Row]) -> Option<Refusal>
    requires classed { AreFramesOfClass class rows.now }
    requires numbered { AreRowsNumbered rows.now }
    requires few { length rows.now < 2 ^ 32 }
    ensures { result ≡ range_fault (steps_at_offset course.now rows.now) rows.now }
{
    let mut near = 0;
    for (frame, row) in rows.iter().enumerate() {
        let steps = course.steps(frame as u32, &mut near);
        if let Some(fault) = fault_at(row.offset(), out_of_range_in_row(class, &steps, row)) {
            return Some(fault);
        }
    }
    None
}

/// The first gain of a file's frames, each moved by its own steps, that would leave the range, in order of frames, granules
/// and channels: `GainRange`.
pub fn range_fault(course: &Course, survey: &Survey) -> Option<Refusal>
    requires { IsSurveyLaidOut (survey_view survey.now) }
    ensures { result ≡ range_fault (steps_at_offset course.now (survey_view survey.now).frames)
        (survey_view survey.now).frames }
{
    first_fault(course, survey.class(), survey.frames())
}

/// The first gain that would leave the range if all frames move by the same steps.
pub(crate) fn constant_steps_fault(steps: Steps, survey: &Survey) -> Option<Refusal>
    requires { IsSurveyLaidOut (survey_view survey.now) }
    ensures { result ≡ range_fault (constant_steps steps) (survey_view survey.now).frames }
{
    range_fault(&Course::Even(steps), survey)
}
