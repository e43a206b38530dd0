//! What a removal prepares before its output is created: the plan of the splice, the Info frame, and all
//! memory.
ghost use Rattle.std.specs.Prelude.{◌≡◌, ◌≤◌, ◌+◌, length, option_copied, All, IfOk};
ghost use Rattle.sync_survey.specs.Faults.{survey_view};
ghost use Rattle.sync_survey.specs.Survey.{IsSurveyLaidOut};
ghost use Rattle.slot_plan.specs.Plans.{entries};
ghost use Rattle.remove_edits.specs.Removed.{first_left};
ghost use Rattle.remove_edits.specs.Ready.{CanBeSplice, IsSpliceOfParts, IsSplicePlanned, IsLaidOut, IsRemovalPlanned, put_off_by};

use crate::kept::kept_of;
use crate::marked::marked;
use crate::splice::{DecidedSplice, decide};
use crate::work::RemovalWork;
use arrayvec::ArrayVec;
use exact_span::WrittenFrames;
use info_header::Info;
use joined_inputs::{JoinWork, plan_splice, splice_info_bytes};
use laying::RelayBuffers;
use seam_plan::Part;
use slot_plan::Plan;
use std::alloc::{AllocError, Global};
use sync_survey::Survey;

/// These frames, written `before` frames later.
fn put_off(written: &[WrittenFrames], before: u32) -> ArrayVec<WrittenFrames, 51>
    requires few { length written.now ≤ 51 }
    requires fits { All (λ w. w.at + before ≤ 4294967295) written.now }
    ensures { result.items ≡ put_off_by before written.now }
{
    let mut later = ArrayVec::new();
    for frames in written {
        later.push(WrittenFrames {
            at: frames.at + before,
            ..*frames
        });
    }
    later
}

/// The plan of a splice, with the lead-ins among its places; and where its parts are written.
#[derive(Drop)]
pub(crate) struct PlannedSplice {
    pub plan: Plan,
    pub written: ArrayVec<WrittenFrames, 51>,
}

/// The plan of the splice of these parts.
///
/// # Errors
/// If memory runs out.
fn plan_parts(alloc: Global, survey: &Survey, parts: &[Part]) -> Result<PlannedSplice, AllocError>
    requires { CanBeSplice (survey_view survey.now) parts.now }
    ensures { IfOk result (IsSplicePlanned (survey_view survey.now) parts.now) }
{
    let DecidedSplice {
        needs,
        lead_ins,
        written,
    } = decide(alloc, survey, parts)?;
    let plan = plan_splice(alloc, needs.as_slice())?;
    let before = plan.placed().len() - needs.len();
    let written = put_off(written.as_slice(), before as u32);
    let plan = marked(alloc, plan, before, lead_ins.as_slice())?;
    Ok(PlannedSplice { plan, written })
}

/// All that the second pass needs for these parts of a surveyed file: their plan, the Info frame
/// before them, and the buffers.
///
/// # Errors
/// If memory runs out.
fn lay_out(
    alloc: Global,
    survey: &Survey,
    head: Option<&Info>,
    parts: &[Part],
) -> Result<JoinWork, AllocError>
    requires splice { CanBeSplice (survey_view survey.now) parts.now }
    requires laid { IsSurveyLaidOut (survey_view survey.now) }
    ensures { IfOk result
        (IsLaidOut (survey_view survey.now) parts.now (option_copied head.entry)) }
{
    let PlannedSplice { plan, written } = plan_parts(alloc, survey, parts)?;
    let class = survey.class();
    let placed = plan.placed();
    let frames = survey.frames().len() as u32;
    let kept = kept_of(class, head, frames, written.as_slice(), placed.len() as u32);
    let info = splice_info_bytes(survey, parts[0].from as usize, kept, placed);
    let buffers = RelayBuffers::new(alloc, class)?;
    Ok(JoinWork {
        plan,
        info,
        buffers,
    })
}

/// Prepares all that is needed for these parts of a surveyed file, at least one, before the output
/// is created.
///
/// # Errors
/// If memory runs out.
pub(crate) fn prepare(
    alloc: Global,
    survey: Survey,
    head: Option<&Info>,
    parts: ArrayVec<Part, 51>,
) -> Result<RemovalWork, AllocError>
    requires splice { CanBeSplice (survey_view survey) parts.items }
    requires laid { IsSurveyLaidOut (survey_view survey) }
    ensures { IfOk result
        (IsRemovalPlanned (survey_view survey) parts.items (option_copied head.entry)) }
{
    let work = lay_out(alloc, &survey, head, parts.as_slice())?;
    Ok(RemovalWork {
        survey,
        parts,
        work,
    })
}
