//! What the commands of this crate change in a file.
ghost use Rattle.std.specs.Prelude.{◌≡◌, List, ℕ, Ok};
ghost use Rattle.outside.specs.Files.{IsFileThere};
ghost use Rattle.outside.specs.Seen.{OnFile};
ghost use Rattle.sync_survey.specs.Faults.{survey_view};
ghost use Rattle.sync_survey.specs.Survey.{survey_of, IsSurveyLaidOut};
ghost use Rattle.commands.specs.SingleOutput.{most_frames};
ghost use Rattle.gain_edits.specs.Change.{IsChangeDecided};
ghost use Rattle.gain_edits.specs.Changes.{are_noted, decided_change, IsDecision};

use crate::gain_change::{noted_in, plain_change};
use crate::undo_change::undone_in;
use crate::undo_item::of_tag;
use commands::{EditFault, Refusal};
use moved_gains::{Change, read_tag};
use outside::Folder;
use requests::Shift;
use std::alloc::Global;
use sync_survey::Survey;
use tag_blocks::Tag;

/// What changes in the gains of a file.
#[derive(Clone, Copy)]
pub enum Changes<'a> {
    /// They move by this shift; with `true` the change is noted in the file's tag.
    Move(&'a Shift, bool),
    /// The changes that the undo item of the file's tag lists are undone.
    Undo,
}

impl<'a> Changes<'a> {
    /// Whether the changes are noted in the file's tag, or were.
    fn are_noted(&self) -> bool
        ensures { result ≡ are_noted self.now }
    {
        match *self {
            Changes::Move(_, tags) => tags,
            Changes::Undo => true,
        }
    }

    /// What changes in a surveyed file that has this tag, or whose tag wasn't read.
    fn decide(&self, alloc: Global, survey: &Survey, tag: Option<Tag>) -> Result<Change, EditFault>
        requires { IsSurveyLaidOut (survey_view survey.now) }
        ensures { IsChangeDecided (survey_view survey.now)
            (decided_change self.now (survey_view survey.now) tag) result }
    {
        match (*self, tag) {
            (Changes::Move(shift, _), None) => plain_change(survey, shift),
            (Changes::Move(shift, _), Some(tag)) => noted_in(alloc, survey, shift, tag),
            (Changes::Undo, None) => Err(Refusal::NoUndo.into()),
            (Changes::Undo, Some(tag)) => undone_in(alloc, survey, tag),
        }
    }

    /// By how many steps the gains of a surveyed file move, and its new tag.
    ///
    /// # Errors
    /// What `gain` and `undo` refuse once the input was surveyed; `Input(0, ..)` with `Read` and `Shrunk`; `Memory`.
    pub(crate) fn find<D: Folder>(
        &self,
        alloc: Global,
        folder: &mut D,
        name: &str,
        survey: &Survey,
    ) -> Result<Change, EditFault>
        requires there { IsFileThere (D.seen folder.old).files name.now }
        requires laid { IsSurveyLaidOut (survey_view survey.now) }
        requires surveyed { OnFile (D.seen folder.old) name.now
            (λ bytes. survey_of bytes most_frames ≡ Ok (survey_view survey.now)) }
        ensures { IsDecision self.now name.now (D.seen folder.old)
            (D.seen folder.new) (survey_view survey.now) result }
    {
        let noted = self.are_noted();
        if !noted {
            return self.decide(alloc, survey, None);
        }
        match read_tag(alloc, folder, name, survey) {
            Ok(tag) => self.decide(alloc, survey, Some(tag)),
            Err(fault) => Err(of_tag(fault)),
        }
    }
}
