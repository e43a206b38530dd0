//! The one body of the commands that send a text of one file.
ghost use Rattle.std.specs.Prelude.{◌≡◌, ◌≤◌, ℕ, List, [], Ok, IfOk, OnOk, OnErr, IfErr, length};
ghost use Rattle.outside.specs.Files.{sent_and_more, IsFileThere};
ghost use Rattle.outside.specs.BufferOutput.{SentPrefix};
ghost use Rattle.outside.specs.Counts.{HasCause};
ghost use Rattle.outside.specs.Seen.{OnFile, OnlyRead};
ghost use Rattle.sync_survey.specs.Faults.{SurveyFields, survey_view};
ghost use Rattle.sync_survey.specs.Survey.{survey_of, IsSurveyLaidOut};
ghost use Rattle.commands.specs.AfterCall.{HasSurveyNumbers};
ghost use Rattle.commands.specs.SingleOutput.{most_frames, IsFileFault};
ghost use Rattle.list_edits.specs.TextCommand.{text_command, IsTextRun};

use commands::{EditFault, MOST_FRAMES, survey_at};
use outside::{Failed, Folder, SendBuffer, Sink};
use std::alloc::Global;
use sync_survey::Survey;

/// A text of a file: what it needs besides the file's survey.
pub(crate) trait FileText: Sized + Drop {
    /// The text of a file with these bytes and this survey.
    ghost text: { List ℕ → SurveyFields → List ℕ };

    /// The same text, given what was read from the file.
    ghost said: { Self → SurveyFields → List ℕ };

    /// Reads what the text needs. It takes no memory, and the files stay.
    ///
    /// # Errors
    /// `Input(0, ..)` with `Read` and `Shrunk` if the input could not be read.
    fn read<D: Folder>(folder: &mut D, input: &str, survey: &Survey) -> Result<Self, EditFault>
        requires there { IsFileThere (D.seen folder.old).files input.now }
        requires laid { IsSurveyLaidOut (survey_view survey.now) }
        requires surveyed { OnFile (D.seen folder.old) input.now
            (λ bytes. survey_of bytes most_frames ≡ Ok (survey_view survey.now)) }
        ensures text { IfOk result (λ it. OnFile (D.seen folder.old) input.now
            (λ bytes. text bytes (survey_view survey.now) ≡ said it (survey_view survey.now))) }
        ensures refused { IfErr result (IsFileFault 0 most_frames input.now
            (D.seen folder.old)
            (D.seen folder.new)) }
        ensures numbers { IfErr result (HasSurveyNumbers 0) }
        ensures reads { OnlyRead result (D.seen folder.old) (D.seen folder.new) };

    /// Sends the text of the file with this survey. It takes no memory.
    ///
    /// # Errors
    /// If a write failed. Then a prefix of the text was sent.
    fn send<T: Sink>(&self, survey: &Survey, buffer: SendBuffer, out: &mut T) -> Result<(), Failed>
        requires laid { IsSurveyLaidOut (survey_view survey.now) }
        requires few { length (survey_view survey.now).frames ≤ most_frames }
        requires empty { buffer ≡ [] }
        ensures sent { OnOk result ((T.heard out.new).sent ≡ sent_and_more (T.heard out.old).sent
            (said self.now (survey_view survey.now))) }
        ensures prefix { OnErr result (SentPrefix (said self.now (survey_view survey.now))
            (T.heard out.old).sent (T.heard out.new).sent) }
        ensures cause { HasCause (T.heard out.old).faults (T.heard out.new).faults result };
}

/// The last step of a command: sends the text. All memory was taken before.
///
/// # Errors
/// `Sent` if a write failed. Then a prefix of the text was sent.
fn tell<K: FileText, T: Sink>(
    text: &K,
    survey: &Survey,
    buffer: SendBuffer,
    out: &mut T,
) -> Result<(), EditFault>
    requires laid { IsSurveyLaidOut (survey_view survey.now) }
    requires few { length (survey_view survey.now).frames ≤ most_frames }
    requires empty { buffer ≡ [] }
    ensures sent { OnOk result ((T.heard out.new).sent ≡ sent_and_more (T.heard out.old).sent
        (K.said text.now (survey_view survey.now))) }
    ensures prefix { OnErr result (SentPrefix (K.said text.now (survey_view survey.now))
        (T.heard out.old).sent (T.heard out.new).sent) }
    ensures cause { HasCause (T.heard out.old).faults (T.heard out.new).faults result }
    ensures fault { IfErr result (λ fault. fault ≡ EditFault.Sent) }
{
    match text.send(survey, buffer, out) {
        Ok(()) => Ok(()),
        Err(Failed) => Err(EditFault::Sent),
    }
}

/// Sends a text of one file to `out`. Nothing is written to the folder.
///
/// # Errors
/// `Input(0, ..)` with the fault of the survey of the input, which may have 2,900,000 frames, or of
/// reading what the text needs besides; `Memory` may be returned once the input was found with a
/// length that it may have. After these nothing was sent: all memory is taken before the first
/// byte. `Sent` only if a write to `out` failed; then a prefix of the text was sent.
pub(crate) fn send_text<K: FileText, D: Folder, T: Sink>(
    alloc: Global,
    folder: &mut D,
    input: &str,
    out: &mut T,
) -> Result<(), EditFault>
    ensures { IsTextRun (text_command K.text input.now)
        (D.seen folder.old)
        (D.seen folder.new)
        (T.heard out.old) (T.heard out.new)
        result }
{
    let survey = survey_at(alloc, folder, input, 0, MOST_FRAMES)?;
    let text = K::read(folder, input, &survey)?;
    let buffer = SendBuffer::new(alloc)?;
    tell(&text, &survey, buffer, out)
}
