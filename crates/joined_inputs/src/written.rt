//! The second pass of a join.
ghost use Rattle.std.specs.Prelude.{◌≡◌, ◌≤◌, ◌++◌, List, ℕ, [], length, map, IfErr, OnOk};
ghost use Rattle.std.specs.List.{concat};
ghost use Rattle.outside.specs.Counts.{NoneFell};
ghost use Rattle.outside.specs.Pass.{AppendsMadeBytes, AppendsPrefix, route_of, HasPassCause};
ghost use Rattle.laying.specs.Written.{front_blocks};
ghost use Rattle.laying.specs.Passing.{IsRelayReady};
ghost use Rattle.sync_survey.specs.Faults.{survey_view};
ghost use Rattle.commands.specs.SingleOutput.{WritesOutput};
ghost use Rattle.joined_inputs.specs.Inputs.{input_view, input_names, HasJoinNumbers};
ghost use Rattle.joined_inputs.specs.Laying.{join_bytes, CanJoinBeWritten, FitsWork, IsJoinPass, AppendsJoined};

use crate::inputs::{JoinInput, input_at};
use crate::laid::lay_all;
use crate::ranges::Rests;
use crate::stopped::Stopped;
use crate::work::JoinWork;
use commands::EditFault;
use laying::{Relay, RelayBuffers};
use outside::{Folder, Pass, PassFault};

/// Appends to the output the ID3v2 blocks of an input before its first frame, and an Info frame of these bytes.
fn append_front<D: Folder>(
    relay: &Relay<'_>,
    folder: &mut D,
    info: &[u8],
    buffers: &mut RelayBuffers,
) -> Result<(), PassFault>
    requires ready { IsRelayReady relay.now (D.seen folder.old).files buffers.old.feed }
    requires none { buffers.old.waiting ≡ [] }
    ensures written { OnOk result
        (AppendsMadeBytes relay.now.pass.input.now relay.now.pass.output.now
        (λ file. concat (front_blocks file (survey_view relay.now.survey.now)) ++ info.now)
        (D.seen folder.old).files (D.seen folder.new).files) }
    ensures prefix { IfErr result (AppendsPrefix relay.now.pass.input.now relay.now.pass.output.now
        (λ file. concat (front_blocks file (survey_view relay.now.survey.now)) ++ info.now)
        (D.seen folder.old).files (D.seen folder.new).files) }
    ensures none { OnOk result (buffers.new.waiting ≡ []) }
    ensures writer { buffers.new.writer ≡ buffers.old.writer }
    ensures done { OnOk result ((D.seen folder.new).counts ≡ (D.seen folder.old).counts) }
    ensures cause { IfErr result (HasPassCause (route_of relay.now.pass) (D.seen folder.old).files
        (D.seen folder.old).counts (D.seen folder.new).counts) }
{
    relay.write_front(folder, info, &mut buffers.feed, &mut buffers.waiting)
}

/// Appends the joined file to the output: the ID3v2 blocks of the first input, the Info frame, and
/// the frames of each input. It takes no memory.
///
/// # Errors
/// Those of `Relay::write`, with the number of the input. Then a prefix of the file was appended,
/// and with `Write` not all of it.
fn append_joined<D: Folder>(
    first: &Relay<'_>,
    folder: &mut D,
    inputs: &[JoinInput<'_>],
    work: &mut JoinWork,
) -> Result<(), Stopped>
    requires few { length inputs.now ≤ 64 }
    requires join { IsJoinPass first.now (map input_view inputs.now) (D.seen folder.old).files }
    requires fits { FitsWork (survey_view first.now.survey.now).class (map input_view inputs.now)
        work.old }
    ensures { AppendsJoined first.now (input_names (map input_view inputs.now))
        (join_bytes (D.seen folder.old).files (map input_view inputs.now) work.old)
        (D.seen folder.old) (D.seen folder.new) result }
{
    let JoinWork {
        plan,
        info,
        buffers,
    } = work;
    if let Err(fault) = append_front(first, folder, info.as_slice(), buffers) {
        return Err(Stopped { number: 0, fault });
    }
    lay_all(first, folder, Rests { inputs }, plan.placed(), buffers)?;
    match first.pass.finish(folder, &mut buffers.waiting) {
        Ok(()) => Ok(()),
        Err(fault) => Err(Stopped { number: 0, fault }),
    }
}

/// Creates the output and writes it, with the frames of each input from the one with its number
/// `from` on. It takes no memory.
///
/// # Errors
/// `Input` with the number of an input and `Read` or `Shrunk`, and `Write(0)`. Then the output is
/// as it was or holds a prefix of its bytes, and with `Write` not all of them.
pub fn write_joined<D: Folder>(
    folder: &mut D,
    output: &str,
    inputs: &[JoinInput<'_>],
    work: &mut JoinWork,
) -> Result<(), EditFault>
    requires some { 1 ≤ length inputs.now }
    requires few { length inputs.now ≤ 64 }
    requires can { CanJoinBeWritten output.now (D.seen folder.old).files (map input_view inputs.now)
        work.old }
    ensures wrote { WritesOutput (join_bytes (D.seen folder.old).files (map input_view inputs.now)
        work.old) (input_names (map input_view inputs.now)) output.now
        (D.seen folder.old)
        (D.seen folder.new) result }
    ensures numbers { IfErr result (HasJoinNumbers (length inputs.now)) }
    ensures counts { NoneFell (D.seen folder.old).counts (D.seen folder.new).counts }
{
    let JoinInput { name, survey, .. } = input_at(inputs, 0);
    let pass = Pass {
        input: name,
        output,
        length: survey.length(),
    };
    let first = Relay { pass, survey };
    let Ok(()) = folder.create(output) else {
        return Err(EditFault::Write(0));
    };
    match append_joined(&first, folder, inputs, work) {
        Ok(()) => Ok(()),
        Err(stopped) => Err(EditFault::of_pass(stopped.number, 0, stopped.fault)),
    }
}
