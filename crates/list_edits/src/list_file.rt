//! The list command over a folder.
ghost use Rattle.std.specs.Prelude.{◌≡◌, [], OnOk, OnErr};
ghost use Rattle.outside.specs.Files.{sent_and_more};
ghost use Rattle.outside.specs.BufferOutput.{SentPrefix};
ghost use Rattle.outside.specs.Counts.{HasCause};
ghost use Rattle.sync_survey.specs.Faults.{survey_view};
ghost use Rattle.sync_survey.specs.Survey.{IsSurveyLaidOut};
ghost use Rattle.list_edits.specs.Listing.{listing, list_command};
ghost use Rattle.list_edits.specs.TextCommand.{IsTextRun};

use crate::file_text::{FileText, send_text};
use crate::line::Line;
use crate::lines::{Common, set_next_line, set_summary};
use crate::things::Things;
use commands::EditFault;
use outside::{Failed, Folder, SendBuffer, Sink};
use std::alloc::Global;
use sync_survey::Survey;

/// Sends the lines of the file and its summary. It takes no memory.
///
/// # Errors
/// If a write failed. Then a prefix of the text was sent.
fn send_listing<T: Sink>(survey: &Survey, mut buffer: SendBuffer, out: &mut T) -> Result<(), Failed>
    requires laid { IsSurveyLaidOut (survey_view survey.now) }
    requires empty { buffer ≡ [] }
    ensures sent { OnOk result ((T.heard out.new).sent ≡ sent_and_more (T.heard out.old).sent
        (listing (survey_view survey.now))) }
    ensures prefix { OnErr result
        (SentPrefix (listing (survey_view survey.now)) (T.heard out.old).sent
        (T.heard out.new).sent) }
    ensures cause { HasCause (T.heard out.old).faults (T.heard out.new).faults result }
{
    let mut line = Line::new();
    let mut common = Common::new();
    let mut things = Things::of(survey);
    while set_next_line(&mut line, &mut common, &mut things) {
        buffer.push(out, line.bytes())?;
    }
    let count = survey.frames().len() as u64;
    set_summary(&mut line, survey.class(), count);
    buffer.push(out, line.bytes())?;
    buffer.finish(out)
}

/// The text of `list`, which needs nothing but the survey.
#[derive(Drop)]
struct FileList;

impl FileText for FileList {
    ghost text = { λ file. listing };

    ghost said = { λ it. listing };

    fn read<D: Folder>(_folder: &mut D, _input: &str, _survey: &Survey) -> Result<Self, EditFault> {
        Ok(FileList)
    }

    fn send<T: Sink>(
        &self,
        survey: &Survey,
        buffer: SendBuffer,
        out: &mut T,
    ) -> Result<(), Failed> {
        send_listing(survey, buffer, out)
    }
}

/// Sends what is in the file to `out`: a line for each thing in order of offset, and a summary.
/// Nothing is written to the folder.
///
/// | thing | line |
/// |---|---|
/// | tag | `block KIND at O: L bytes`, KIND is `ID3v2`, `ID3v1` or `APEv2` |
/// | junk before the first frame | `junk at O: L bytes` |
/// | Xing or Info head | `head at O: L bytes` |
/// | frame | `frame I at O: R kbit/s, begin B, bits P`, with ` padded` after `kbit/s` if padding is set, and with `, lost` at its end if the frame is lost |
/// | summary | `N frames, V, F Hz, C channels, M.SS.HH` |
///
/// O is an offset and L a length in bytes, I the number of the frame, counted from 0 without the
/// head, R its bit rate, B its main_data_begin in bytes, P how many bits its main data are; it is
/// lost if they begin before the file, in frames that were cut off. F is the sampling frequency in
/// Hz, V is `MPEG-1`, `MPEG-2` or `MPEG-2.5`, and M.SS.HH are minutes, seconds and hundredths,
/// rounded down.
///
/// # Errors
/// `Input(0, ..)` with the fault of the survey of the input, which may have 2,900,000 frames;
/// `Memory` may be returned once the input was found with a length that it may have. After these
/// nothing was sent: all memory is taken before the first byte. `Sent` only if a write to `out`
/// failed; then a prefix of the text was sent.
pub fn list<D: Folder, T: Sink>(
    alloc: Global,
    folder: &mut D,
    input: &str,
    out: &mut T,
) -> Result<(), EditFault>
    ensures { IsTextRun (list_command input.now)
        (D.seen folder.old)
        (D.seen folder.new)
        (T.heard out.old) (T.heard out.new)
        result }
{
    send_text::<FileList, D, T>(alloc, folder, input, out)
}
