//! The seamless join over a folder.
ghost use Rattle.std.specs.Prelude.{◌≡◌, ◌≤◌, ◌∷◌, [], None, length, map, string_bytes, IfOk, IfErr};
ghost use Rattle.outside.specs.Seen.{OnlyRead};
ghost use Rattle.commands.specs.Kept.{asked_of};
ghost use Rattle.commands.specs.Command.{clash_of};
ghost use Rattle.commands.specs.SingleOutput.{IsEarlyFault};
ghost use Rattle.commands.specs.Runs.{IsRunOf};
ghost use Rattle.commands.specs.SentText.{SaysText, answer_fault};
ghost use Rattle.joined_inputs.specs.Inputs.{input_view, input_names, HasJoinNumbers};
ghost use Rattle.seamless_edits.specs.Reading.{IsInputReadFault};
ghost use Rattle.seamless_edits.specs.Deciding.{CanBeDecided};
ghost use Rattle.seamless_edits.specs.Seamless.{seamless_task, seamless_command};
ghost use Rattle.seamless_edits.specs.SeamlessReady.{IsSpliceMade, IsSeamlessReady};

use crate::apart::set_all_apart;
use crate::beginnings::{Beginning, beginnings_of};
use crate::decided::{Decided, decide_all};
use crate::lines::send_lines;
use crate::planned::prepare_splice;
use commands::{EditFault, ask_all, clash};
use joined_inputs::{JoinInput, JoinWork, survey_all, write_joined};
use outside::{Failed, Folder, SendBuffer, Sink};
use std::alloc::Global;

/// The decision, what the second pass needs, and the memory of the text.
#[derive(Drop)]
struct MadeSplice {
    decided: Decided,
    work: JoinWork,
    sending: SendBuffer,
}

/// All that is prepared before the output is created: the inputs, with their heads set apart, the
/// numbers of the lost frames of each, and what is made from them.
#[derive(Drop)]
struct Ready<'a> {
    inputs: Vec<JoinInput<'a>>,
    lost: Vec<Vec<usize>>,
    made: MadeSplice,
}

/// Decides which frames are left out, and prepares the second pass.
///
/// # Errors
/// `Input` with the number of an input and `Read` or `Shrunk`; `Memory`. The files stay.
fn make_ready<D: Folder>(
    alloc: Global,
    folder: &mut D,
    inputs: &[JoinInput<'_>],
    beginnings: &[Beginning],
) -> Result<MadeSplice, EditFault>
    requires can { CanBeDecided (D.seen folder.old).files (map input_view inputs.now)
        beginnings.now }
    ensures made { IfOk result (IsSpliceMade (D.seen folder.old).files (map input_view inputs.now)
        beginnings.now) }
    ensures refused { IfErr result (IsInputReadFault (input_names (map input_view inputs.now))
        (D.seen folder.old)
        (D.seen folder.new)) }
    ensures numbers { IfErr result (HasJoinNumbers (length inputs.now)) }
    ensures reads { OnlyRead result (D.seen folder.old) (D.seen folder.new) }
{
    let decided = decide_all(alloc, folder, inputs, beginnings)?;
    let work = prepare_splice(alloc, inputs, beginnings, &decided)?;
    let sending = SendBuffer::new(alloc)?;
    Ok(MadeSplice {
        decided,
        work,
        sending,
    })
}

/// Surveys the inputs, decides which frames are left out, and prepares the second pass.
///
/// # Errors
/// Those of `join_seamless` before the output is created. The files stay.
fn prepare_all<'a, D: Folder>(
    alloc: Global,
    folder: &mut D,
    names: &'a [String],
) -> Result<Ready<'a>, EditFault>
    requires some { 1 ≤ length names.now }
    requires few { length names.now ≤ 64 }
    ensures ready { IfOk result
        (IsSeamlessReady (map string_bytes names.now) (D.seen folder.old).files) }
    ensures refused { IfErr result (IsEarlyFault (seamless_task (map string_bytes names.now))
        (D.seen folder.old)
        (D.seen folder.new)) }
    ensures numbers { IfErr result (HasJoinNumbers (length names.now)) }
    ensures reads { OnlyRead result (D.seen folder.old) (D.seen folder.new) }
{
    let mut inputs = survey_all(alloc, folder, names)?;
    let beginnings = beginnings_of(alloc, folder, &inputs)?;
    let lost = set_all_apart(alloc, &mut inputs)?;
    let made = make_ready(alloc, folder, &inputs, &beginnings)?;
    Ok(Ready { inputs, lost, made })
}

/// Writes the output, and then sends to `out` what became of each input. No names clash, and all is
/// prepared.
///
/// # Errors
/// Those of `join_seamless` from the first byte written on.
fn write_and_tell<D: Folder, T: Sink>(
    folder: &mut D,
    output: &str,
    ready: &mut Ready<'_>,
    out: &mut T,
) -> Result<(), EditFault>
    requires some { 1 ≤ length ready.old.inputs.items }
    requires few { length ready.old.inputs.items ≤ 64 }
    requires free { clash_of
        (seamless_command output.now (input_names (map input_view ready.old.inputs.items))) ≡ None }
    requires ready { IsSeamlessReady (input_names (map input_view ready.old.inputs.items))
        (D.seen folder.old).files ready.old }
    ensures run { IsRunOf
        (seamless_command output.now (input_names (map input_view ready.old.inputs.items)))
        (D.seen folder.old)
        (D.seen folder.new) result }
    ensures says { SaysText
        (seamless_command output.now (input_names (map input_view ready.old.inputs.items)))
        (D.seen folder.old).files (T.heard out.old) (T.heard out.new)
        (answer_fault result) }
{
    let Ready { inputs, lost, made } = ready;
    let MadeSplice {
        decided,
        work,
        sending,
    } = made;
    decided.leave_out(inputs);
    write_joined(folder, output, inputs, work)?;
    match send_lines(inputs, decided.joints.as_slice(), lost, sending, out) {
        Ok(()) => Ok(()),
        Err(Failed) => Err(EditFault::Sent),
    }
}

/// Writes the output: the frames of the inputs, 1 to 64 of one class, in their order and with all
/// main data, but without those that only a piece needs. It consists of the ID3v2 blocks of the
/// first input before its first frame or head, an Info frame, and the frames in the slots of their
/// plan, which are one part (ISO/IEC 11172-3, 2.4.2.7). Then it sends to `out` a line for each
/// input after the first. The splice before an input serves as its bit reservoir. What becomes of an
/// input is the first of these that is possible:
///
/// | line | what is left out at its front |
/// |---|---|
/// | `NAME: follows, X frames left out` | the X frames that it shares with the input before it, if the heads of both count, these frames are whole frames, and the played ones among them sound like the last frames before it |
/// | `NAME: lead-in left out` | its lead-in, if the frames after it need one |
/// | `NAME: whole` | nothing |
///
/// The line ends in `, K frames lost` where K frames of the input are lost and aren't left out: they
/// are written as silence.
///
/// Frames can join if there is room for their main data after the frames before them, the first of
/// them in its own slot or in the least greater one. Finally, the lead-in of the first input is
/// left out if the frames after it need one, and the plan adds one again.
///
/// In every input the head is set apart, as players leave it out: a frame whose main data begin in
/// the head's area is lost too, if every frame before it is silent or lost, and lost frames are
/// written as empty ones. If the first input's head counts and the delay has 12 bits, the Info
/// frame has the quality of this head, and an extension with encoder delay, padding, music length
/// and tag CRC: the delay of the first input, plus or minus the frames by which the front changed,
/// and the padding of the last. Peak and ReplayGain stay only if the heads of all inputs have the
/// same values.
///
/// # Errors
/// Those of `join`, in their order; `Input` with `Read` and `Shrunk` also if a head, or a frame
/// that is compared, could not be read; and those of the question of `join`. After these nothing was created and nothing sent, except
/// for those of the second pass: `Input` with `Read` or `Shrunk`, and `Write(0)`, after which the
/// output is as it was or holds a prefix of its bytes, after `Write(0)` not all of them, and
/// nothing was sent. `Sent` if a write to `out` failed; then the output is whole, and a prefix of
/// the text was sent.
pub fn join_seamless<D: Folder, T: Sink>(
    alloc: Global,
    folder: &mut D,
    output: &str,
    inputs: &[String],
    out: &mut T,
) -> Result<(), EditFault>
    requires some { 1 ≤ length inputs.now }
    requires few { length inputs.now ≤ 64 }
    // The inputs are well-formed, and the output holds the frames of the splice after at most one lead-in.
    ensures run { IsRunOf
        (asked_of D.keeping (seamless_command output.now (map string_bytes inputs.now)))
        (D.seen folder.old)
        (D.seen folder.new) result }
    // The text; a prefix of it was sent if a write failed.
    ensures says { SaysText
        (asked_of D.keeping (seamless_command output.now (map string_bytes inputs.now)))
        (D.seen folder.old).files (T.heard out.old) (T.heard out.new)
        (answer_fault result) }
{
    if let Some(place) = clash(output, inputs) {
        return Err(EditFault::EqualNames(place));
    }
    let mut ready = prepare_all(alloc, folder, inputs)?;
    ask_all(folder, &[output])?;
    write_and_tell(folder, output, &mut ready, out)
}
