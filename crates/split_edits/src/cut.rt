//! What differs between the commands that split a file.
ghost use Rattle.std.specs.Prelude.{◌≡◌, ◌⊎◌, ◌≤◌, List, ℕ, Option, length, option_copied, option_to_list, Ok, Err, IfOk, IfErr, MatchResult};
ghost use Rattle.outside.specs.Files.{IsFileThere};
ghost use Rattle.outside.specs.Seen.{OnFile, OnlyRead};
ghost use Rattle.info_header.specs.declared.fields.Info.{Info};
ghost use Rattle.sync_survey.specs.Faults.{survey_view, SurveyFields};
ghost use Rattle.sync_survey.specs.Survey.{survey_of, IsSurveyLaidOut};
ghost use Rattle.laying.specs.Laid.{selected_part, IsWritableSelection};
ghost use Rattle.commands.specs.AfterCall.{IsEditRefusal};
ghost use Rattle.commands.specs.SingleOutput.{most_frames};
ghost use Rattle.cut_edits.specs.Heads.{IsHeadFault, HasHeadNumbers};
ghost use Rattle.split_edits.specs.Cutting.{Cutting, ArePlaces};
ghost use Rattle.split_edits.specs.Steps.{SaysPlaces, IsPlacesFault, HasPlacesNumbers, IsSplitSource};

use crate::source::SplitSource;
use commands::EditFault;
use laying::Selected;
use outside::Folder;
use std::alloc::Global;
use sync_survey::Survey;

/// Where a file is cut, and what is laid between two such places.
pub(crate) trait Cut {
    /// A place at which a file is cut.
    type Place: Drop;

    /// At which places the file is cut, and what is laid between two of them.
    ghost cutting: { Self → Cutting Self.Place };

    /// What is required of the cut.
    ghost IsLegal: { Self → Type 0 };

    /// What is required of a place.
    ghost IsSound: { Self.Place → Type 0 };

    /// What is read from the head of a file with this survey.
    ghost head: { List ℕ → SurveyFields → Option Info };

    /// The name of the cue sheet with the places, if they aren't given.
    fn sheet(&self) -> Option<&str>
        ensures { option_to_list (option_copied result) ≡ (cutting self.now).more };

    /// The places: the given ones, or the starts in a cue sheet and the end. The files stay.
    ///
    /// # Errors
    /// Those of `sheet_places`; `Memory`.
    fn places<D: Folder>(
        &self,
        alloc: Global,
        folder: &mut D,
    ) -> Result<Vec<Self::Place>, EditFault>
        requires { IsLegal self.now }
        ensures places { IfOk result
            (λ places. SaysPlaces (cutting self.now) (D.seen folder.old).files (Ok places.items)) }
        ensures sound { IfOk result (λ places. ArePlaces IsSound places.items) }
        ensures refused { IfErr result (IsPlacesFault (cutting self.now)
            (D.seen folder.old)
            (D.seen folder.new)) }
        ensures numbers { IfErr result (HasPlacesNumbers (cutting self.now)) }
        ensures reads { OnlyRead result (D.seen folder.old) (D.seen folder.new) };

    /// What pieces need from a surveyed input. The files stay.
    ///
    /// # Errors
    /// `Input(0, ..)` with `Read` and `Shrunk` if the frame of the head could not be read.
    fn read<D: Folder>(
        &self,
        folder: &mut D,
        input: &str,
        survey: Survey,
    ) -> Result<SplitSource, EditFault>
        requires there { IsFileThere (D.seen folder.old).files input.now }
        requires laid { IsSurveyLaidOut (survey_view survey) }
        requires few { length (survey_view survey).frames ≤ most_frames }
        requires surveyed { OnFile (D.seen folder.old) input.now
            (λ bytes. survey_of bytes most_frames ≡ Ok (survey_view survey)) }
        ensures source { IfOk result (λ source. OnFile (D.seen folder.old) input.now
            (λ bytes. IsSplitSource (cutting self.now) head source bytes (survey_view survey))) }
        ensures survey { IfOk result (λ source. survey_view source.survey
            ≡ (cutting self.now).survey (survey_view survey)) }
        ensures laid { IfOk result (λ source. IsSurveyLaidOut (survey_view source.survey)) }
        ensures few { IfOk result
            (λ source. length (survey_view source.survey).frames ≤ most_frames) }
        ensures refused { IfErr result (IsHeadFault input.now
            (D.seen folder.old)
            (D.seen folder.new)) }
        ensures numbers { IfErr result HasHeadNumbers }
        ensures reads { OnlyRead result (D.seen folder.old) (D.seen folder.new) };

    /// What is laid from one place of the input to another: refused if there is nothing between
    /// them, or if the second is after the end; `Memory`.
    fn select(
        &self,
        alloc: Global,
        source: &SplitSource,
        from: &Self::Place,
        to: &Self::Place,
    ) -> Result<Selected, EditFault>
        requires from { IsSound from.now }
        requires to { IsSound to.now }
        requires laid { IsSurveyLaidOut (survey_view source.now.survey) }
        requires few { length (survey_view source.now.survey).frames ≤ most_frames }
        ensures laid { MatchResult result
            (λ selected. (file : List ℕ) (s : SurveyFields)
            → IsSplitSource (cutting self.now) head source.now file s
            → (cutting self.now).between from.now to.now file s ≡ Ok (selected_part selected))
            (λ fault. (fault ≡ EditFault.Memory) ⊎ (IsEditRefusal (cutting self.now).refuses fault
            × ((file : List ℕ) (s : SurveyFields)
            → IsSplitSource (cutting self.now) head source.now file s
            → (cutting self.now).between from.now to.now file s ≡ Err fault))) }
        ensures writable { IfOk result (IsWritableSelection (survey_view source.now.survey)) };
}
