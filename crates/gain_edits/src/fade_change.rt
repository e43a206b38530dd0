//! What a sheet changes in a file.
ghost use Rattle.std.specs.Prelude.{◌≡◌, ◌⊎◌, ◌≤◌, length, Some, Ok, Err, MatchResult, IfOk, IfErr, OnOk};
ghost use Rattle.outside.specs.Files.{IsFileThere};
ghost use Rattle.outside.specs.Seen.{OnFile, OnlyRead};
ghost use Rattle.sync_survey.specs.Faults.{survey_view};
ghost use Rattle.sync_survey.specs.Survey.{IsSurveyLaidOut};
ghost use Rattle.commands.specs.declared.fault.EditFault.TheVariants.{Memory};
ghost use Rattle.commands.specs.AfterCall.{IsEditRefusal};
ghost use Rattle.cue_sheet.specs.Limits.{longest_sheet};
ghost use Rattle.moved_gains.specs.Course.{steps_at_offset};
ghost use Rattle.moved_gains.specs.Change.{change_in};
ghost use Rattle.gain_edits.specs.Fade.{points_in, sheet_curve, choice_refuses, steps_change, sheet_change, input_sheet_change};
ghost use Rattle.gain_edits.specs.Steps.{IsChangeFault, HasChangeNumbers};

use crate::range_fault;
use commands::{EditFault, Refusal, sheet_bytes};
use fade_plan::{Curve, Envelope, EnvelopeFault};
use moved_gains::{Change, Course};
use outside::Folder;
use std::alloc::Global;
use sync_survey::Survey;

/// The points that the bytes of a sheet list.
fn points_in(alloc: Global, sheet: &[u8]) -> Result<Envelope, EditFault>
    requires { length sheet.now ≤ longest_sheet }
    ensures { MatchResult result
        (λ points. points_in sheet.now ≡ Ok points)
        (λ fault. (fault ≡ Memory)
        ⊎ (IsEditRefusal choice_refuses fault × (points_in sheet.now ≡ Err fault))) }
{
    match Envelope::read(alloc, sheet) {
        Ok(envelope) => Ok(envelope),
        Err(EnvelopeFault::Memory) => Err(EditFault::Memory),
        Err(fault) => Err(Refusal::Curve(fault).into()),
    }
}

/// The curve of these points over a surveyed file.
fn curve_by(alloc: Global, sheet: &[u8], survey: &Survey) -> Result<Curve, EditFault>
    requires few { length sheet.now ≤ longest_sheet }
    requires laid { IsSurveyLaidOut (survey_view survey.now) }
    ensures { MatchResult result
        (λ curve. sheet_curve (survey_view survey.now) sheet.now ≡ Ok curve)
        (λ fault. (fault ≡ Memory) ⊎ (IsEditRefusal choice_refuses fault
        × (sheet_curve (survey_view survey.now) sheet.now ≡ Err fault))) }
{
    let points = points_in(alloc, sheet)?;
    let frames = survey.frames().len() as u32;
    match points.place_on(survey.class(), frames) {
        Ok(curve) => Ok(curve),
        Err(line) => Err(Refusal::CurveNotRising(line).into()),
    }
}

/// The frames move along the course: `GainRange` for the first gain that would leave the range.
fn change_along(course: Course, survey: &Survey) -> Result<Change, EditFault>
    requires { IsSurveyLaidOut (survey_view survey.now) }
    ensures { MatchResult result
        (λ change. steps_change (steps_at_offset course (survey_view survey.now).frames)
        (survey_view survey.now) ≡ Ok (change_in change (survey_view survey.now)))
        (λ fault. IsEditRefusal choice_refuses fault
        × (steps_change (steps_at_offset course (survey_view survey.now).frames)
        (survey_view survey.now) ≡ Err fault)) }
{
    match range_fault(&course, survey) {
        Some(refusal) => Err(refusal.into()),
        None => Ok(Change { course, tag: None }),
    }
}

/// What the bytes of a sheet change in a surveyed file: `Curve`, `CurveNotRising` and `GainRange`, the first of these.
fn fade_in(alloc: Global, sheet: &[u8], back: bool, survey: &Survey) -> Result<Change, EditFault>
    requires few { length sheet.now ≤ longest_sheet }
    requires laid { IsSurveyLaidOut (survey_view survey.now) }
    ensures { MatchResult result
        (λ change. sheet_change sheet.now back (survey_view survey.now)
        ≡ Ok (change_in change (survey_view survey.now)))
        (λ fault. (fault ≡ Memory) ⊎ (IsEditRefusal choice_refuses fault
        × (sheet_change sheet.now back (survey_view survey.now) ≡ Err fault))) }
{
    let curve = curve_by(alloc, sheet, survey)?;
    change_along(Course::Along(curve, back), survey)
}

/// What the sheet changes in the surveyed input. The files stay.
///
/// # Errors
/// `Input(1, ..)` with `Absent`, `Read` and `Shrunk`, and `SheetTooLarge`, if the sheet can't be
/// read; otherwise those of `fade_in`; `Memory`.
pub(crate) fn fade_change<D: Folder>(
    alloc: Global,
    folder: &mut D,
    sheet: &str,
    back: bool,
    survey: &Survey,
) -> Result<Change, EditFault>
    requires laid { IsSurveyLaidOut (survey_view survey.now) }
    ensures there { OnOk result (IsFileThere (D.seen folder.old).files sheet.now) }
    ensures change { IfOk result (λ change. OnFile (D.seen folder.old) sheet.now
        (λ bytes. input_sheet_change (Some bytes) back (survey_view survey.now)
        ≡ Ok (change_in change (survey_view survey.now)))) }
    ensures refused { IfErr result (IsChangeFault sheet.now back (survey_view survey.now)
        (D.seen folder.old)
        (D.seen folder.new)) }
    ensures numbers { IfErr result HasChangeNumbers }
    ensures reads { OnlyRead result (D.seen folder.old) (D.seen folder.new) }
{
    let bytes = sheet_bytes(alloc, folder, sheet)?;
    fade_in(alloc, bytes.as_slice(), back, survey)
}
