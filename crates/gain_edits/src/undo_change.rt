//! What an undo changes in a file.
ghost use Rattle.std.specs.Prelude.{◌≡◌, IfOk};
ghost use Rattle.sync_survey.specs.Faults.{survey_view};
ghost use Rattle.sync_survey.specs.Survey.{IsSurveyLaidOut};
ghost use Rattle.gain_edits.specs.Change.{IsChangeDecided};
ghost use Rattle.gain_edits.specs.UndoItem.{bytes_unless_empty};
ghost use Rattle.gain_edits.specs.Undo.{undone_change, undone_tag_change};

use crate::gain_range::constant_steps_fault;
use crate::undo_item::{found_undo, undo_steps};
use commands::EditFault;
use moved_gains::{Change, Course};
use std::alloc::{AllocError, Global};
use sync_survey::Survey;
use tag_blocks::{Tag, Undo};

/// The bytes of the tag; none if it has no items.
fn bytes_unless_empty(alloc: Global, tag: &Tag) -> Result<Vec<u8>, AllocError>
    ensures { IfOk result (λ bytes. bytes.items ≡ bytes_unless_empty tag.now) }
{
    if tag.is_empty() {
        Ok(Vec::new(alloc))
    } else {
        tag.write(alloc)
    }
}

/// The gains move by the steps of the undo item, and the item is removed from the tag: `GainRange`
/// for the first gain that would leave the range from 0 to 255; `Memory`.
fn undone_change(alloc: Global, survey: &Survey, tag: Tag, undo: &Undo) -> Result<Change, EditFault>
    requires { IsSurveyLaidOut (survey_view survey.now) }
    ensures { IsChangeDecided (survey_view survey.now)
        (undone_change (survey_view survey.now) tag undo.now) result }
{
    let mut tag = tag;
    let steps = undo_steps(undo);
    if let Some(refusal) = constant_steps_fault(steps, survey) {
        return Err(refusal.into());
    }
    tag.drop_undo();
    let bytes = bytes_unless_empty(alloc, &tag)?;
    Ok(Change {
        course: Course::Even(steps),
        tag: Some(bytes),
    })
}

/// What an undo changes in a file with this tag. Refused by `NoUndo` and `BadUndo`, otherwise as
/// `undone_change`; or `Memory`.
pub(crate) fn undone_in(alloc: Global, survey: &Survey, tag: Tag) -> Result<Change, EditFault>
    requires { IsSurveyLaidOut (survey_view survey.now) }
    ensures { IsChangeDecided (survey_view survey.now)
        (undone_tag_change (survey_view survey.now) tag) result }
{
    let undo = found_undo(survey, &tag)?;
    undone_change(alloc, survey, tag, &undo)
}
