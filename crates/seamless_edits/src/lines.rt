//! The text of a join without seams.
ghost use Rattle.std.specs.Prelude.{◌≡◌, ◌+◌, ◌<◌, ◌≤◌, ◌++◌, [], codes, length, map, drop, vec_items, OnOk, OnErr};
ghost use Rattle.outside.specs.Files.{sent_and_more};
ghost use Rattle.outside.specs.BufferOutput.{SendsWaiting, SentPrefix};
ghost use Rattle.outside.specs.Counts.{HasCause};
ghost use Rattle.seamless_edits.specs.Seamless.{seam_text, lost_frames_text, seam_line};
ghost use Rattle.joined_inputs.specs.Inputs.{input_view, input_names};
ghost use Rattle.seamless_edits.specs.Lines.{told_lines};

use crate::apart::count_from;
use joined_inputs::{JoinInput, input_at};
use list_edits::Line;
use outside::{Failed, SendBuffer, Sink};
use seam_plan::{Joint, Seam};

/// Sets the text to the end of an input's line: how many of its frames are lost, if any is.
fn set_lost(line: &mut Line, lost: u64)
    ensures text { line.new ≡ lost_frames_text lost ++ codes "\n" }
    ensures few { length line.new ≤ 35 }
{
    line.clear();
    line.put(b"\n");
    if lost > 0 {
        line.put(b" frames lost");
        line.put_number(lost);
        line.put(b", ");
    }
}

/// Puts what became of an input before the end of its line.
fn put_seam(line: &mut Line, seam: Seam)
    requires { length line.old ≤ 35 }
    ensures { line.new ≡ codes ": " ++ (seam_text seam ++ line.old) }
{
    match seam {
        Seam::Follows(frames) => {
            line.put_counted(u64::from(frames), b" frames left out");
            line.put(b": follows, ");
        }
        Seam::LeadIn => line.put(b": lead-in left out"),
        Seam::Whole => line.put(b": whole"),
    }
}

/// Adds the line of an input, of which this many frames are lost, to what waits.
///
/// # Errors
/// If a write failed. Then a prefix of what waited and the line was sent.
fn push_line<T: Sink>(
    name: &str,
    seam: Seam,
    lost: u64,
    line: &mut Line,
    buffer: &mut SendBuffer,
    out: &mut T,
) -> Result<(), Failed>
    ensures passed { OnOk result
        (SendsWaiting (buffer.old ++ seam_line name.now seam lost) buffer.new
        (T.heard out.old).sent (T.heard out.new).sent) }
    ensures prefix { OnErr result (SentPrefix (buffer.old ++ seam_line name.now seam lost)
        (T.heard out.old).sent (T.heard out.new).sent) }
    ensures cause { HasCause (T.heard out.old).faults (T.heard out.new).faults result }
{
    buffer.push(out, name.as_bytes())?;
    set_lost(line, lost);
    put_seam(line, seam);
    buffer.push(out, line.bytes())
}

/// Sends a line for each input after the first, with what became of it and how many of its frames
/// are lost and written as silence, if any is. `lost` has the numbers of the lost frames of each
/// input. It takes no memory.
///
/// # Errors
/// If a write failed. Then a prefix of the text was sent.
pub(crate) fn send_lines<T: Sink>(
    inputs: &[JoinInput<'_>],
    joints: &[Joint],
    lost: &[Vec<usize>],
    buffer: &mut SendBuffer,
    out: &mut T,
) -> Result<(), Failed>
    requires inputs { length joints.now < length inputs.now }
    requires lost { length joints.now < length lost.now }
    requires empty { buffer.old ≡ [] }
    ensures sent { OnOk result ((T.heard out.new).sent ≡ sent_and_more (T.heard out.old).sent
        (told_lines (drop 1 (input_names (map input_view inputs.now))) joints.now
        (drop 1 (map vec_items lost.now)))) }
    ensures prefix { OnErr result
        (SentPrefix (told_lines (drop 1 (input_names (map input_view inputs.now))) joints.now
        (drop 1 (map vec_items lost.now)))
        (T.heard out.old).sent (T.heard out.new).sent) }
    ensures cause { HasCause (T.heard out.old).faults (T.heard out.new).faults result }
{
    let mut line = Line::new();
    for place in 0..joints.len() {
        let input = input_at(inputs, place + 1);
        let seam = joints[place].seam;
        let lost = count_from(seam.left_out() as usize, lost[place + 1].as_slice());
        push_line(input.name, seam, lost, &mut line, buffer, out)?;
    }
    buffer.finish(out)
}
