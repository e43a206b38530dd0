//! The surveys of all inputs.
ghost use Rattle.std.specs.Prelude.{◌≡◌, ◌≤◌, ◌<◌, ◌+◌, ◌∷◌, true, None, length, map, drop, string_bytes, is_some, IfOk, IfErr, OnOk};
ghost use Rattle.outside.specs.Seen.{OnlyRead};
ghost use Rattle.sync_survey.specs.Faults.{survey_view};
ghost use Rattle.commands.specs.SingleOutput.{most_frames};
ghost use Rattle.joined_inputs.specs.Parts.{may_join};
ghost use Rattle.joined_inputs.specs.Inputs.{input_view, input_names, IsSurveyed, IsPartFault, HasJoinNumbers, HasClassOfFirst, AreJoinInputs, IsEarlyInputFault, class_of_first};

use crate::inputs::JoinInput;
use commands::{EditFault, MOST_FRAMES, Refusal, survey_at};
use frame_header::Class;
use outside::Folder;
use std::alloc::Global;
use sync_survey::Survey;

/// The name of the input with this number, counted from 0.
fn name_at(inputs: &[String], number: usize) -> &str
    requires { number < length inputs.now }
    ensures { drop number (map string_bytes inputs.now)
        ≡ result.now ∷ drop (number + 1) (map string_bytes inputs.now) }
{
    inputs[number].as_str()
}

/// Whether an input of this class may follow: any if there is no input before it, otherwise one of
/// the first input's class.
fn may_follow(first: Option<Class>, class: Class) -> bool
    ensures value { result ≡ may_join first class }
    ensures follows { result ≡ true → HasClassOfFirst first class }
{
    match first {
        Some(first) => class.is_same(first),
        None => true,
    }
}

/// The survey of input `number`, counted from 0, which may have `allowed`
/// frames, after a first input of this class.
///
/// # Errors
/// `Input` with that number and the fault of the survey; `Differ` with it if the input's frames are
/// of another class; `Memory`. The files stay.
fn survey_part<D: Folder>(
    alloc: Global,
    folder: &mut D,
    name: &str,
    number: u32,
    first: Option<Class>,
    allowed: u32,
) -> Result<Survey, EditFault>
    requires behind { is_some first ≡ true → 0 < number }
    ensures input { OnOk result (IfOk result
        (λ s. IsSurveyed allowed (D.seen folder.old).files name.now (survey_view s))) }
    ensures follows { IfOk result (λ s. HasClassOfFirst first (survey_view s).class) }
    ensures refused { IfErr result (IsPartFault number first allowed name.now
        (D.seen folder.old)
        (D.seen folder.new)) }
    ensures numbers { IfErr result (HasJoinNumbers (number + 1)) }
    ensures reads { OnlyRead result (D.seen folder.old) (D.seen folder.new) }
{
    let survey = survey_at(alloc, folder, name, number, allowed)?;
    if may_follow(first, survey.class()) {
        Ok(survey)
    } else {
        Err(Refusal::Differ(number).into())
    }
}

/// The class of the first of these inputs.
fn first_class(inputs: &[JoinInput<'_>]) -> Option<Class>
    ensures { result ≡ class_of_first (map input_view inputs.now) }
{
    match inputs {
        [] => None,
        [first, ..] => Some(first.survey.class()),
    }
}

/// All inputs with their surveys, in order, so that all their frames are written; together they may have 2,900,000
/// frames. The files stay.
///
/// # Errors
/// Those of `survey_part`, for the first input that has one.
pub fn survey_all<'a, D: Folder>(
    alloc: Global,
    folder: &mut D,
    names: &'a [String],
) -> Result<Vec<JoinInput<'a>>, EditFault>
    requires few { length names.now ≤ 64 }
    ensures inputs { IfOk result (λ inputs.
        AreJoinInputs None most_frames (D.seen folder.old).files (map input_view inputs.items)) }
    ensures names { IfOk result (λ inputs.
        input_names (map input_view inputs.items) ≡ map string_bytes names.now) }
    ensures refused { IfErr result (IsEarlyInputFault (map string_bytes names.now)
        (D.seen folder.old)
        (D.seen folder.new)) }
    ensures numbers { IfErr result (HasJoinNumbers (length names.now)) }
    ensures reads { OnlyRead result (D.seen folder.old) (D.seen folder.new) }
{
    let mut inputs = Vec::new(alloc);
    let mut left = MOST_FRAMES;
    for number in 0..names.len() {
        let first = first_class(&inputs);
        let name = name_at(names, number);
        let survey = survey_part(alloc, folder, name, number as u32, first, left)?;
        left -= survey.frames().len() as u32;
        inputs.push(JoinInput {
            name,
            survey,
            from: 0,
        })?;
    }
    Ok(inputs)
}
