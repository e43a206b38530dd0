//! The command `drill`.
ghost use Rattle.std.specs.Prelude.{◌≡◌, ◌≤◌, Ok, IfOk, IfErr};
ghost use Rattle.outside.specs.Files.{Files};
ghost use Rattle.sync_survey.specs.Faults.{survey_view};
ghost use Rattle.sync_survey.specs.Survey.{survey_of};
ghost use Rattle.commands.specs.SingleOutput.{most_frames};
ghost use Rattle.commands.specs.SentText.{SaysText, answer_fault};
ghost use Rattle.drill.specs.Drilled.{packed_file, drill_summary, drill_command, IsDrillFault};

use crate::{FRAME_LENGTH, Summary, send_summary, stream_folder, streams_are_long};
use commands::{EditFault, MOST_FRAMES};
use cut_edits::pack;
use outside::{Failed, Sink};
use std::alloc::{AllocError, Global};
use sync_survey::{Survey, survey};

/// Makes the stream of this seed, of `count` frames, in a folder of its own, packs it there, and surveys the packed file.
///
/// # Errors
/// If memory runs out.
fn survey_packed(
    alloc: Global,
    seed: u32,
    count: u32,
    stream: &str,
    packed: &str,
) -> Result<Survey, AllocError>
    requires some { 1 ≤ count }
    requires few { count ≤ 20000 }
    ensures { IfOk result (λ survey. survey_of (packed_file seed count) most_frames
        ≡ Ok (survey_view survey)) }
{
    let mut folder = stream_folder(alloc, seed, count, stream, packed)?;
    let Ok(()) = pack(alloc, &mut folder, stream, packed) else {
        return Err(AllocError);
    };
    match survey(alloc, &mut folder, packed, MOST_FRAMES) {
        Ok(survey) => Ok(survey),
        Err(_) => Err(AllocError),
    }
}

/// The numbers in the line about the stream and the packed file.
///
/// # Errors
/// If memory runs out.
fn summary_of(alloc: Global, seed: u32, count: u32) -> Result<Summary, AllocError>
    requires some { 1 ≤ count }
    requires few { count ≤ 20000 }
    ensures { IfOk result (λ summary. summary ≡ drill_summary seed count) }
{
    let survey = survey_packed(alloc, seed, count, "stream", "packed")?;
    let frames = u64::from(count);
    streams_are_long();
    Ok(Summary {
        frames,
        bytes_in: FRAME_LENGTH * frames,
        bytes_out: survey.length(),
        lead_ins: survey.frames().len() as u64 - frames,
    })
}

/// Makes the stream of this seed, of `count` frames, in a folder in memory of its own, packs it
/// there with the least slots, surveys the packed file, and sends the line `N frames, A bytes in, B
/// bytes out, L lead-ins`: N is the number of frames, A the length of the stream in bytes, B the
/// length of the packed file, and L the number of lead-ins in it, which is always 0. The seed is
/// for a linear congruential generator modulo 2^31, and each frame of the stream has 417 bytes.
///
/// # Errors
/// `Memory` if memory runs out, or a call of the folder in memory failed; then nothing was sent.
/// `Sent` only if a write to `out` failed; then a prefix of the line was sent. The packing is never
/// refused (`drills_are_packed`).
pub fn drill<T: Sink>(alloc: Global, seed: u32, count: u32, out: &mut T) -> Result<(), EditFault>
    requires some { 1 ≤ count }
    requires few { count ≤ 20000 }
    // This holds whatever files there are: none is read.
    ensures says { (files : Files) → SaysText (drill_command seed count) files
        (T.heard out.old) (T.heard out.new)
        (answer_fault result) }
    ensures fault { IfErr result IsDrillFault }
{
    let summary = summary_of(alloc, seed, count)?;
    match send_summary(out, &summary) {
        Ok(()) => Ok(()),
        Err(Failed) => Err(EditFault::Sent),
    }
}
