//! What a join without seams prepares before its output is created: the plan of the splice, the Info frame, and
//! all memory.
ghost use Rattle.std.specs.Prelude.{◌<◌, length, map, IfOk};
ghost use Rattle.joined_inputs.specs.Inputs.{input_view, CanInputsBeJoined};
ghost use Rattle.seamless_edits.specs.Deciding.{IsSpliceable};
ghost use Rattle.seamless_edits.specs.SpliceReady.{AreEnds, IsSpliceReady};

use crate::beginnings::Beginning;
use crate::decided::Decided;
use crate::numbers::{Ends, Moved, kept_of};
use joined_inputs::{JoinInput, JoinWork, input_at, plan_splice, splice_info_bytes};
use laying::RelayBuffers;
use std::alloc::{AllocError, Global};

/// The class of all inputs, and how many frames the first and the last have.
fn ends_of_all(inputs: &[JoinInput<'_>]) -> Ends
    requires { CanInputsBeJoined (map input_view inputs.now) }
    ensures { AreEnds (map input_view inputs.now) result }
{
    let first = &input_at(inputs, 0).survey;
    let last = &input_at(inputs, inputs.len() - 1).survey;
    Ends {
        class: first.class(),
        first: first.frames().len() as u32,
        last: last.frames().len() as u32,
    }
}

/// Prepares all that is needed for a splice before the output is created.
pub(crate) fn prepare_splice(
    alloc: Global,
    inputs: &[JoinInput<'_>],
    beginnings: &[Beginning],
    decided: &Decided,
) -> Result<JoinWork, AllocError>
    requires joined { CanInputsBeJoined (map input_view inputs.now) }
    requires begun { 0 < length beginnings.now }
    requires splice { IsSpliceable (map input_view inputs.now) decided.now }
    ensures { IfOk result (IsSpliceReady (map input_view inputs.now) beginnings.now decided.now) }
{
    let needs = decided.splice();
    let plan = plan_splice(alloc, needs)?;
    let first = &input_at(inputs, 0).survey;
    let placed = plan.placed();
    let moved = Moved {
        left_out: decided.front,
        lead_ins: placed.len().saturating_sub(needs.len()) as u32,
    };
    let kept = kept_of(beginnings, ends_of_all(inputs), moved);
    let info = splice_info_bytes(first, decided.front as usize, kept, placed);
    let buffers = RelayBuffers::new(alloc, first.class())?;
    Ok(JoinWork {
        plan,
        info,
        buffers,
    })
}
