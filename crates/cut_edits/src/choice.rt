//! Which frames of a file the commands of this crate choose.
ghost use Rattle.std.specs.Prelude.{◌≡◌, ◌<◌, ◌≤◌, Bool, ℕ, List, length, Ok, Err, MatchResult, IfOk, IfErr};
ghost use Rattle.outside.specs.Files.{IsFileThere};
ghost use Rattle.outside.specs.Seen.{OnFile, OnlyRead};
ghost use Rattle.cue_sheet.specs.Places.{IsPlace};
ghost use Rattle.sync_survey.specs.Faults.{survey_view};
ghost use Rattle.sync_survey.specs.Survey.{survey_of, IsSurveyLaidOut};
ghost use Rattle.commands.specs.AfterCall.{HasInputNumbers, IsEditRefusal};
ghost use Rattle.commands.specs.SingleOutput.{most_frames, IsInputFault, Making};
ghost use Rattle.commands.specs.declared.fault.Refusal.{Refusal};
ghost use Rattle.cut_edits.specs.Chosen.{chosen_in, Planning, laying_making, cut_choice, all_choice, cut_refuses};
ghost use Rattle.cut_edits.specs.Choices.{choosing_of, refuses_of_choice, IsSoundChoice};

use crate::chosen::{Chosen, choose};
use commands::EditFault;
use cue_sheet::Place;
use laying::{Kept, kept_fields};
use outside::Folder;
use sync_survey::Survey;

/// Which frames are chosen.
#[derive(Clone, Copy)]
pub enum FrameChoice<'a> {
    /// The frames from the first position up to, but not including, the second.
    Between(&'a Place, &'a Place),
    /// All frames, with the quality and extension of the input's head.
    All,
}

/// The frames between two positions: `Range` if there is none, or if the second is after the end of
/// the file.
#[tactic(auto, unfolding(crate::specs::Chosen::cut_choice))]
pub fn cut_choice(survey: &Survey, from: &Place, to: &Place) -> Result<Chosen, EditFault>
    requires from { IsPlace from.now }
    requires to { IsPlace to.now }
    requires few { length (survey_view survey.now).frames ≤ most_frames }
    ensures chosen { MatchResult result
        (λ chosen. (file : List ℕ)
        → cut_choice from.now to.now file (survey_view survey.now) ≡ Ok (chosen_in chosen))
        (λ fault. (file : List ℕ)
        → cut_choice from.now to.now file (survey_view survey.now) ≡ Err fault) }
    ensures some { IfOk result (λ chosen. chosen.from < chosen.to) }
    ensures within { IfOk result (λ chosen. chosen.to ≤ length (survey_view survey.now).frames) }
    ensures refusal { IfErr result (IsEditRefusal cut_refuses) }
{
    let frames = survey.frames().len();
    let class = survey.class();
    let from = from.frame_of(class, frames as u32);
    let to = to.frame_of(class, frames as u32);
    choose(from, to, frames, Kept::none())
}

/// All frames, with the quality and extension of the input's head.
///
/// # Errors
/// `Input` with `Read` and `Shrunk` if the frame of the head could not be read. The files stay.
pub fn all_choice<D: Folder>(
    folder: &mut D,
    name: &str,
    survey: &Survey,
) -> Result<Chosen, EditFault>
    requires there { IsFileThere (D.seen folder.old).files name.now }
    requires laid { IsSurveyLaidOut (survey_view survey.now) }
    requires few { length (survey_view survey.now).frames ≤ most_frames }
    requires surveyed { OnFile (D.seen folder.old) name.now
        (λ bytes. survey_of bytes most_frames ≡ Ok (survey_view survey.now)) }
    ensures chosen { IfOk result (λ chosen. OnFile (D.seen folder.old) name.now
        (λ bytes. all_choice bytes (survey_view survey.now) ≡ Ok (chosen_in chosen))) }
    ensures some { IfOk result (λ chosen. chosen.from < chosen.to) }
    ensures within { IfOk result (λ chosen. chosen.to ≤ length (survey_view survey.now).frames) }
    // This holds whatever the command makes of the frames.
    ensures refused { IfErr result (λ fault. (make : Making)
        → IsInputFault make name.now (D.seen folder.old)
        (D.seen folder.new) fault) }
    ensures numbers { IfErr result (λ fault. (refuses : Refusal → Bool)
        → HasInputNumbers refuses fault) }
    ensures reads { OnlyRead result (D.seen folder.old) (D.seen folder.new) }
{
    let kept = match kept_fields(folder, name, survey) {
        Ok(kept) => kept,
        Err(fault) => return Err(EditFault::of_pass(0, 0, fault)),
    };
    Ok(Chosen {
        from: 0,
        to: survey.frames().len(),
        kept,
    })
}

impl<'a> FrameChoice<'a> {
    /// The chosen frames of a surveyed input: `Range` if there is none between the positions, or if
    /// the second is after the end; `Input(0, ..)` with `Read` and `Shrunk` if the frame of the
    /// head could not be read.
    pub(crate) fn find<D: Folder>(
        &self,
        folder: &mut D,
        name: &str,
        survey: &Survey,
    ) -> Result<Chosen, EditFault>
        requires choice { IsSoundChoice self.now }
        requires there { IsFileThere (D.seen folder.old).files name.now }
        requires laid { IsSurveyLaidOut (survey_view survey.now) }
        requires few { length (survey_view survey.now).frames ≤ most_frames }
        requires surveyed { OnFile (D.seen folder.old) name.now
            (λ bytes. survey_of bytes most_frames ≡ Ok (survey_view survey.now)) }
        ensures chosen { IfOk result (λ chosen. OnFile (D.seen folder.old) name.now
            (λ bytes. choosing_of self.now bytes (survey_view survey.now)
            ≡ Ok (chosen_in chosen))) }
        ensures some { IfOk result (λ chosen. chosen.from < chosen.to) }
        ensures within { IfOk result
            (λ chosen. chosen.to ≤ length (survey_view survey.now).frames) }
        // This holds however the frames are planned.
        ensures refused { IfErr result (λ fault. (plan : Planning)
            → IsInputFault (laying_making (choosing_of self.now) plan) name.now
            (D.seen folder.old)
            (D.seen folder.new) fault) }
        ensures numbers { IfErr result (HasInputNumbers (refuses_of_choice self.now)) }
        ensures reads { OnlyRead result (D.seen folder.old) (D.seen folder.new) }
    {
        match *self {
            FrameChoice::Between(from, to) => cut_choice(survey, from, to),
            FrameChoice::All => all_choice(folder, name, survey),
        }
    }
}
