//! The info command over a folder.
ghost use Rattle.std.specs.Prelude.{◌≡◌, ◌≤◌, [], OnOk, OnErr, length, flat_map, option_copied};
ghost use Rattle.outside.specs.Files.{sent_and_more};
ghost use Rattle.outside.specs.BufferOutput.{SentPrefix};
ghost use Rattle.outside.specs.Counts.{HasCause};
ghost use Rattle.sync_survey.specs.Faults.{survey_view};
ghost use Rattle.sync_survey.specs.Survey.{IsSurveyLaidOut};
ghost use Rattle.commands.specs.SingleOutput.{most_frames};
ghost use Rattle.list_edits.specs.InfoText.{info_text, info_of, info_command};
ghost use Rattle.list_edits.specs.TextCommand.{IsTextRun};

use crate::file_text::{FileText, send_text};
use crate::info_lines::info_lines;
use crate::line::Line;
use commands::EditFault;
use info_header::Info;
use laying::head_fields;
use outside::{Failed, Folder, SendBuffer, Sink};
use std::alloc::Global;
use sync_survey::Survey;

/// Sends some lines. It takes no memory.
///
/// # Errors
/// If a write failed. Then a prefix of the text was sent.
fn send_lines<T: Sink>(lines: &[Line], mut buffer: SendBuffer, out: &mut T) -> Result<(), Failed>
    requires empty { buffer ≡ [] }
    ensures sent { OnOk result ((T.heard out.new).sent ≡ sent_and_more (T.heard out.old).sent
        (flat_map (λ line. line) lines.now)) }
    ensures prefix { OnErr result (SentPrefix (flat_map (λ line. line) lines.now)
        (T.heard out.old).sent (T.heard out.new).sent) }
    ensures cause { HasCause (T.heard out.old).faults (T.heard out.new).faults result }
{
    for line in lines {
        buffer.push(out, line.bytes())?;
    }
    buffer.finish(out)
}

/// Sends the lines of the file with this head. It takes no memory.
///
/// # Errors
/// If a write failed. Then a prefix of the text was sent.
fn send_info<T: Sink>(
    survey: &Survey,
    head: Option<&Info>,
    buffer: SendBuffer,
    out: &mut T,
) -> Result<(), Failed>
    requires laid { IsSurveyLaidOut (survey_view survey.now) }
    requires few { length (survey_view survey.now).frames ≤ most_frames }
    requires empty { buffer ≡ [] }
    ensures sent { OnOk result ((T.heard out.new).sent ≡ sent_and_more (T.heard out.old).sent
        (info_text (option_copied head.entry) (survey_view survey.now))) }
    ensures prefix { OnErr result (SentPrefix (info_text (option_copied head.entry)
        (survey_view survey.now)) (T.heard out.old).sent (T.heard out.new).sent) }
    ensures cause { HasCause (T.heard out.old).faults (T.heard out.new).faults result }
{
    send_lines(&info_lines(survey, head), buffer, out)
}

/// The text of `info`, for which the fields of the head are read, if the file has one.
#[derive(Drop)]
struct FileInfo {
    head: Option<Info>,
}

impl FileText for FileInfo {
    ghost text = { info_of };

    ghost said = { λ it. info_text it.head };

    fn read<D: Folder>(folder: &mut D, input: &str, survey: &Survey) -> Result<Self, EditFault> {
        match head_fields(folder, input, survey) {
            Ok(head) => Ok(FileInfo { head }),
            Err(fault) => Err(EditFault::of_pass(0, 0, fault)),
        }
    }

    fn send<T: Sink>(
        &self,
        survey: &Survey,
        buffer: SendBuffer,
        out: &mut T,
    ) -> Result<(), Failed> {
        send_info(survey, self.head.as_ref(), buffer, out)
    }
}

/// Sends to `out` what the input is, in 7 to 10 lines. Nothing is written to the folder.
///
/// | line | what it says |
/// |---|---|
/// | `V, F Hz, C channels` | V is `MPEG-1`, `MPEG-2` or `MPEG-2.5`, F the sampling frequency, C the number of channels |
/// | `N frames, K lost, M.SS.HH` | N frames without the head, K of them lost; the minutes, seconds and hundredths that they sound, rounded down |
/// | `R kbit/s`, or `R to S kbit/s` | the least and the greatest bit rate of the frames, if they differ |
/// | `P of Q bytes are main data` | P bytes of main data of the frames that aren't lost, in the Q bytes of all areas, including the head's |
/// | `no head`, or `TEXT head, H frames, H bytes` | TEXT is `Xing` or `Info`, and the numbers are the head's; a number that it doesn't have is left out |
/// | `but N frames, E bytes are here` | only if the head's number of frames differs from N, or its number of bytes from E, the bytes of the head and of all frames |
/// | `delay D, padding G, plays S samples`, or `plays S samples` | delay and padding if the head counts, and how many samples players play |
/// | `left: gains A to B, steps -A to +U`, then `right:` | the least and the greatest gain of channel 0 that moves, and by how many steps the gains can be moved without leaving the range from 0 to 255; then the same for channel 1 |
/// | `both: steps -A to +U` | the steps of both channels together |
///
/// With one channel there is one line instead of the last three, `mono: gains A to B, steps -A to
/// +U`. If no gain moves, the line continues with `no gains`. A gain moves if its granule has main
/// data and its frame isn't lost.
///
/// # Errors
/// `Input(0, ..)` with the fault of the survey of the input, which may have 2,900,000 frames, and
/// with `Read` or `Shrunk` also if its head could not be read after the survey; `Memory` may be
/// returned once the input was found with a length that it may have. After these nothing was sent:
/// all memory is taken before the first byte. `Sent` only if a write to `out` failed; then a prefix
/// of the text was sent.
pub fn info<D: Folder, T: Sink>(
    alloc: Global,
    folder: &mut D,
    input: &str,
    out: &mut T,
) -> Result<(), EditFault>
    ensures { IsTextRun (info_command input.now)
        (D.seen folder.old)
        (D.seen folder.new)
        (T.heard out.old) (T.heard out.new)
        result }
{
    send_text::<FileInfo, D, T>(alloc, folder, input, out)
}
