//! The first pass: what can be read of the input, and its plan.
ghost use Rattle.std.specs.Prelude.{◌≡◌, ◌≤◌, List, ℕ, length, IfOk, OnOk};
ghost use Rattle.outside.specs.Files.{Files, IsFileThere};
ghost use Rattle.sync_survey.specs.Faults.{survey_view};
ghost use Rattle.sync_survey.specs.Survey.{HoldsOctets, IsSurveyLaidOut};
ghost use Rattle.commands.specs.SingleOutput.{most_frames};
ghost use Rattle.cut_edits.specs.Chosen.{chosen_in};
ghost use Rattle.salvage_edits.specs.Salvaged.{all_chosen};
ghost use Rattle.salvage_edits.specs.Ready.{IsMended, IsSalvageReady, ReadsDamaged};

use crate::report::Report;
use crate::work::SalvageWork;
use commands::EditFault;
use cut_edits::{Chosen, LaidWork as LaidWork, plan_file};
use laying::Kept;
use outside::{Folder, SendBuffer};
use salvage::{Mended, read_damaged};
use std::alloc::{AllocError, Global};
use sync_survey::Survey;

/// What can be read of the input, where each frame whose main data can't be used has none.
///
/// # Errors
/// `Input` with the fault of the reading; `Memory`. The files stay.
fn read_input<D: Folder>(alloc: Global, folder: &mut D, input: &str) -> Result<Mended, EditFault>
    ensures mended { IfOk result (IsMended input.now (D.seen folder.old).files) }
    ensures laid { IfOk result (λ m. IsSurveyLaidOut (survey_view m.survey)) }
    ensures few { IfOk result (λ m. length (survey_view m.survey).frames ≤ most_frames) }
    ensures there { OnOk result (IsFileThere (D.seen folder.old).files input.now) }
    ensures octets { OnOk result (HoldsOctets input.now (D.seen folder.old).files) }
    ensures reads { ReadsDamaged input.now result
        (D.seen folder.old)
        (D.seen folder.new) }
{
    let damaged = match read_damaged(alloc, folder, input) {
        Ok(damaged) => damaged,
        Err(fault) => return Err(fault.into()),
    };
    match damaged.mend(alloc) {
        Ok(mended) => Ok(mended),
        Err(_) => Err(EditFault::Memory),
    }
}

/// All frames.
fn all_frames(survey: &Survey) -> Chosen
    ensures { chosen_in result ≡ all_chosen (survey_view survey.now) }
{
    Chosen {
        from: 0,
        to: survey.frames().len(),
        kept: Kept::none(),
    }
}

/// The plan of all frames that were read, and all memory of the pass.
///
/// # Errors
/// If memory runs out.
fn make_ready(alloc: Global, mended: Mended) -> Result<SalvageWork, AllocError>
    requires laid { IsSurveyLaidOut (survey_view mended.survey) }
    requires few { length (survey_view mended.survey).frames ≤ most_frames }
    ensures { IfOk result (λ work. (input : List ℕ) (files : Files) → IsMended input files mended
        → IsFileThere files input → HoldsOctets input files → IsSalvageReady input files work) }
{
    let Mended {
        survey,
        emptied,
        gaps,
    } = mended;
    let selected = plan_file(alloc, &survey, &all_frames(&survey), false)?;
    let laid = LaidWork::new(alloc, survey, selected)?;
    let sending = SendBuffer::new(alloc)?;
    Ok(SalvageWork {
        laid,
        report: Report { gaps, emptied },
        sending,
    })
}

/// Reads what can be read of the input, plans its frames, and takes all memory.
///
/// # Errors
/// `Input` with the fault of the reading; `Memory`. The files stay.
pub(crate) fn prepare<D: Folder>(
    alloc: Global,
    folder: &mut D,
    input: &str,
) -> Result<SalvageWork, EditFault>
    ensures ready { IfOk result (IsSalvageReady input.now (D.seen folder.old).files) }
    ensures reads { ReadsDamaged input.now result
        (D.seen folder.old)
        (D.seen folder.new) }
{
    let mended = read_input(alloc, folder, input)?;
    let work = make_ready(alloc, mended)?;
    Ok(work)
}
