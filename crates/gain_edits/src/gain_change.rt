//! What a move of gains changes in a file.
ghost use Rattle.std.specs.Prelude.{◌≡◌, ◌≤◌, ◌+◌, ◌-◌};
ghost use Rattle.sync_survey.specs.Faults.{survey_view};
ghost use Rattle.sync_survey.specs.Survey.{IsSurveyLaidOut};
ghost use Rattle.moved_gains.specs.TagExtent.{tag_length};
ghost use Rattle.gain_edits.specs.Change.{IsChangeDecided};
ghost use Rattle.gain_edits.specs.Gain.{plain_change, noted_change, noted_tag_change};

use crate::channels::channel_fault;
use crate::gain_range::constant_steps_fault;
use crate::undo_item::{next_undo, noted_undo};
use commands::{EditFault, LONGEST_FILE, LONGEST_TAG, Refusal};
use moved_gains::{Change, Course, tag_extent};
use requests::Shift;
use std::alloc::Global;
use sync_survey::Survey;
use tag_blocks::{Tag, Undo};

/// A change without a note in the tag.
pub(crate) fn plain_change(survey: &Survey, shift: &Shift) -> Result<Change, EditFault>
    requires { IsSurveyLaidOut (survey_view survey.now) }
    ensures { IsChangeDecided (survey_view survey.now)
        (plain_change shift.now (survey_view survey.now)) result }
{
    let steps = shift.each();
    match channel_fault(shift, survey).or(constant_steps_fault(steps, survey)) {
        Some(refusal) => Err(refusal.into()),
        None => Ok(Change {
            course: Course::Even(steps),
            tag: None,
        }),
    }
}

/// The length in bytes of the output with a tag of `tag` bytes: the file without its junk and its
/// old tag, plus this tag.
fn output_length(survey: &Survey, tag: u64) -> u64
    requires laid { IsSurveyLaidOut (survey_view survey.now) }
    requires few { tag ≤ 2097088 }
    ensures { result ≡ (survey_view survey.now).length
        - ((survey_view survey.now).first - (survey_view survey.now).junk) - tag_length
        (survey_view survey.now) + tag }
{
    let (_, junk) = survey.junk();
    (survey.length() - junk).saturating_sub(tag_extent(survey).length) + tag
}

/// The change, noted in this tag, whose undo item has the steps `undo`. Refused by the first of
/// `Mono`, `Joint`, `UndoRange`, `TagTooLarge`, `OutputTooLong` and `GainRange`; or `Memory`.
fn noted_change(
    alloc: Global,
    survey: &Survey,
    shift: &Shift,
    tag: Tag,
    undo: &Undo,
) -> Result<Change, EditFault>
    requires { IsSurveyLaidOut (survey_view survey.now) }
    ensures { IsChangeDecided (survey_view survey.now)
        (noted_change shift.now (survey_view survey.now) tag undo.now) result }
{
    let mut tag = tag;
    if let Some(refusal) = channel_fault(shift, survey) {
        return Err(refusal.into());
    }
    let next = next_undo(shift, undo)?;
    tag.set_undo(&next)?;
    let size = tag.length();
    if size > LONGEST_TAG {
        return Err(Refusal::TagTooLarge(size).into());
    }
    let length = output_length(survey, size);
    if length > LONGEST_FILE {
        return Err(Refusal::OutputTooLong(length).into());
    }
    let steps = shift.each();
    if let Some(refusal) = constant_steps_fault(steps, survey) {
        return Err(refusal.into());
    }
    let bytes = tag.write(alloc)?;
    Ok(Change {
        course: Course::Even(steps),
        tag: Some(bytes),
    })
}

/// The change, noted in this tag of the file. Refused by `BadUndo`, otherwise as `noted_change`; or
/// `Memory`.
pub(crate) fn noted_in(
    alloc: Global,
    survey: &Survey,
    shift: &Shift,
    tag: Tag,
) -> Result<Change, EditFault>
    requires { IsSurveyLaidOut (survey_view survey.now) }
    ensures { IsChangeDecided (survey_view survey.now)
        (noted_tag_change shift.now (survey_view survey.now) tag) result }
{
    let undo = noted_undo(survey, &tag)?;
    noted_change(alloc, survey, shift, tag, &undo)
}
