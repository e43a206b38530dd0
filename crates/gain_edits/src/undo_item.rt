//! How a change of gains is noted in the undo item of the tag.
ghost use Rattle.std.specs.Prelude.{◌≡◌, ◌≤◌, ◌-ℤ◌, None, Some, unsigned_abs, MatchResult, IfOk, IfErr};
ghost use Rattle.tag_blocks.specs.UndoText.{UndoFitsText};
ghost use Rattle.tag_blocks.specs.UndoItems.{undo_from};
ghost use Rattle.moved_gains.specs.TagExtent.{tag_offset};
ghost use Rattle.sync_survey.specs.Faults.{survey_view};
ghost use Rattle.sync_survey.specs.Survey.{IsSurveyLaidOut};
ghost use Rattle.gain_edits.specs.UndoItem.{tag_edit_fault, undo_or, noted_undo, found_undo, undo_steps, next_undo, number_fault, undo_fault};

use commands::{EditFault, Refusal};
use moved_gains::{FileTagFault, tag_extent};
use requests::{Shift, Steps};
use sync_survey::Survey;
use tag_blocks::{Tag, Undo, UndoItem};

/// The undo item holds numbers of at most three digits.
const LARGEST_NUMBER: u32 = 999;

/// Why the tag of the one input can't be read, as a fault of the command.
pub(crate) fn of_tag(fault: FileTagFault) -> EditFault
    ensures { result ≡ tag_edit_fault fault }
{
    match fault {
        FileTagFault::TooLarge(size) => Refusal::TagTooLarge(size).into(),
        FileTagFault::Bad(at) => Refusal::BadTag(at).into(),
        FileTagFault::Read(fault) => EditFault::Input(0, fault.into()),
        FileTagFault::Memory => EditFault::Memory,
    }
}

/// The content of the undo item of the file's tag, or `missing` if there is none. `BadUndo` with
/// the offset in bytes of the item if its value is malformed.
fn undo_or(survey: &Survey, tag: &Tag, missing: Result<Undo, EditFault>) -> Result<Undo, EditFault>
    requires { IsSurveyLaidOut (survey_view survey.now) }
    ensures { result ≡ undo_or missing (tag_offset (survey_view survey.now))
        (undo_from 32 tag.now.items) }
{
    let at = tag_extent(survey).offset;
    // Called for its contract: the item is within the tag, so the sum below can't overflow.
    let _ = tag.length();
    match tag.undo() {
        UndoItem::Missing => missing,
        UndoItem::Bad(place) => Err(Refusal::BadUndo(at + place).into()),
        UndoItem::Found(undo) => Ok(undo),
    }
}

/// The content of the undo item; 0 steps if there is none.
pub(crate) fn noted_undo(survey: &Survey, tag: &Tag) -> Result<Undo, EditFault>
    requires { IsSurveyLaidOut (survey_view survey.now) }
    ensures { result
        ≡ noted_undo (tag_offset (survey_view survey.now)) (undo_from 32 tag.now.items) }
{
    let none = Undo {
        left: 0,
        right: 0,
        wrap: false,
    };
    undo_or(survey, tag, Ok(none))
}

/// The content of the undo item, which has to be there: `NoUndo` if there is none.
pub(crate) fn found_undo(survey: &Survey, tag: &Tag) -> Result<Undo, EditFault>
    requires { IsSurveyLaidOut (survey_view survey.now) }
    ensures { result
        ≡ found_undo (tag_offset (survey_view survey.now)) (undo_from 32 tag.now.items) }
{
    undo_or(survey, tag, Err(Refusal::NoUndo.into()))
}

/// The steps that the item lists, which undo the changes.
pub(crate) fn undo_steps(undo: &Undo) -> Steps
    ensures { result ≡ undo_steps undo.now }
{
    Steps {
        left: undo.left,
        right: undo.right,
        wrap: undo.wrap,
    }
}

fn difference(steps: i16, taken: i16) -> i32
    ensures { result ≡ steps -ℤ taken }
{
    i32::from(steps) - i32::from(taken)
}

/// A number of the item less the steps of a change: `UndoRange` with the difference if it isn't
/// from -999 to 999.
fn number(steps: i16, taken: i16) -> Result<i16, Refusal>
    ensures number { MatchResult result
        (λ number. (number ≡ steps -ℤ taken) × (unsigned_abs number ≤ 999)
        × (number_fault (steps -ℤ taken) ≡ None))
        (λ fault. number_fault (steps -ℤ taken) ≡ Some fault) }
{
    let number = difference(steps, taken);
    if number.unsigned_abs() <= LARGEST_NUMBER {
        Ok(number as i16)
    } else {
        Err(Refusal::UndoRange(number))
    }
}

/// The undo item after a further change: the steps of the change are subtracted, and it has `W` if
/// it had before or the change wraps. `UndoRange` with the first number, the left one first, that
/// isn't from -999 to 999.
pub(crate) fn next_undo(shift: &Shift, undo: &Undo) -> Result<Undo, Refusal>
    ensures undo { MatchResult result
        (λ next. (next ≡ next_undo shift.now undo.now) × (undo_fault next ≡ None))
        (λ fault. undo_fault (next_undo shift.now undo.now) ≡ Some fault) }
    ensures fits { IfOk result UndoFitsText }
{
    let steps = shift.each();
    Ok(Undo {
        left: number(undo.left, steps.left)?,
        right: number(undo.right, steps.right)?,
        wrap: undo.wrap || shift.wrap,
    })
}
