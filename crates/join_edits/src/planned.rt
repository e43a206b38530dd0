//! What a join of all frames prepares before its output is created: the plan, the Info frame, and all
//! memory.
ghost use Rattle.std.specs.Prelude.{◌≡◌, map, IfOk};
ghost use Rattle.laying.specs.Needs.{plan_input};
ghost use Rattle.slot_plan.specs.Plans.{entries};
ghost use Rattle.joined_inputs.specs.Inputs.{input_view, survey_rows, CanInputsBeJoined};
ghost use Rattle.join_edits.specs.JoinReady.{IsPlanOf, IsJoinReady};

use joined_inputs::{JoinInput, JoinWork, input_at};
use laying::{Kept, Parts, RelayBuffers, info_bytes};
use slot_plan::{Keep, Plan, plan};
use std::alloc::{AllocError, Global};

/// The parts of a plan: the frames of each input are one part.
fn parts_of(alloc: Global, inputs: &[JoinInput<'_>]) -> Result<Parts, AllocError>
    requires { CanInputsBeJoined (map input_view inputs.now) }
    ensures { IfOk result
        (λ parts. parts ≡ plan_input (survey_rows (map input_view inputs.now))) }
{
    let mut parts = Parts::new(alloc);
    for input in inputs {
        parts.push(input.survey.frames())?;
    }
    Ok(parts)
}

/// The plan of all frames, each in its own slot.
fn plan_all(alloc: Global, inputs: &[JoinInput<'_>]) -> Result<Plan, AllocError>
    requires { CanInputsBeJoined (map input_view inputs.now) }
    ensures { IfOk result (λ plan. IsPlanOf (map input_view inputs.now) (entries plan)) }
{
    let parts = parts_of(alloc, inputs)?;
    plan(alloc, parts.needs(), parts.places(), &Keep)
}

/// Prepares all that is needed before the output is created.
pub(crate) fn prepare(alloc: Global, inputs: &[JoinInput<'_>]) -> Result<JoinWork, AllocError>
    requires { CanInputsBeJoined (map input_view inputs.now) }
    ensures { IfOk result (IsJoinReady (map input_view inputs.now)) }
{
    let plan = plan_all(alloc, inputs)?;
    let first = &input_at(inputs, 0).survey;
    let info = info_bytes(first, 0, &Kept::none(), plan.placed());
    let buffers = RelayBuffers::new(alloc, first.class())?;
    Ok(JoinWork {
        plan,
        info,
        buffers,
    })
}
