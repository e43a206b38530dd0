//! The survey of an input of a command.
ghost use Rattle.commands.specs.Answers.{InputSurvey};

use crate::fault::EditFault;
use outside::Folder;
use std::alloc::Global;
use sync_survey::{Survey, survey};

/// The survey of an input of a command, which may have `allowed` frames. `number` is its number
/// among the inputs, counted from 0. The files stay as they are.
///
/// This is `survey` with that number in the fault, and no more: its callers would otherwise repeat
/// the same lines, and what they know about the result is proved here once.
///
/// # Errors
/// `Input` with that number and the fault of the survey, which is `TooManyFrames` if the input has
/// more frames; `Memory`.
pub fn survey_at<D: Folder>(
    alloc: Global,
    folder: &mut D,
    name: &str,
    number: u32,
    allowed: u32,
) -> Result<Survey, EditFault>
    ensures { InputSurvey number allowed name.now (D.seen folder.old) (D.seen folder.new) result }
{
    match survey(alloc, folder, name, allowed) {
        Ok(survey) => Ok(survey),
        Err(fault) => Err(EditFault::of_survey(number, fault)),
    }
}
