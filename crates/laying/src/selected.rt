//! Frames of a surveyed input to be written.
ghost use Rattle.std.specs.Prelude.{◌≡◌, ◌<◌, ◌≤◌, length};
ghost use Rattle.frame_header.specs.Limits.{most_output_frames};
ghost use Rattle.frame_header.specs.Tables.{window_of};
ghost use Rattle.slot_plan.specs.Plans.{entries};
ghost use Rattle.sync_survey.specs.Faults.{survey_view};
ghost use Rattle.laying.specs.Fits.{IsFittingPlan};
ghost use Rattle.laying.specs.Laid.{selected_part, laid_part, needs_laid, IsWritableSelection};

use crate::info::{Kept, info_bytes};
use arrayvec::ArrayVec;
use slot_plan::Plan;
use sync_survey::Survey;

/// The frames of a surveyed input from frame `from` up to, but not including, frame `to`, counted
/// from 0, with the plan of their slots, what the Info frame before them takes over from the head
/// of the input, and the bytes of the Info frame, at most 1,441.
#[derive(Drop)]
pub struct Selected {
    pub from: usize,
    pub to: usize,
    pub kept: Kept,
    pub plan: Plan,
    pub info: ArrayVec<u8, 1441>,
}

impl Selected {
    /// These frames in the slots of a plan of at most 2,900,064 places, whichever planner made it.
    pub fn new(survey: &Survey, from: usize, to: usize, kept: Kept, plan: Plan) -> Selected
        requires some { from < to }
        requires within { to ≤ length (survey_view survey.now).frames }
        requires few { length (entries plan) ≤ most_output_frames }
        requires fitting { IsFittingPlan (window_of (survey_view survey.now).class.version)
            (needs_laid (laid_part from to kept (entries plan)) (survey_view survey.now))
            (entries plan) }
        ensures laid { selected_part result ≡ laid_part from to kept (entries plan) }
        ensures writable { IsWritableSelection (survey_view survey.now) result }
    {
        let info = info_bytes(survey, from, &kept, plan.placed());
        Selected {
            from,
            to,
            kept,
            plan,
            info,
        }
    }
}
