//! The plan of a splice of frames, which is one part, and the Info frame before it.
ghost use Rattle.std.specs.Prelude.{◌≡◌, ◌<◌, ◌≤◌, List, length, map, slice_get, Some, IfOk};
ghost use Rattle.frame_header.specs.Fields.{ClassFields};
ghost use Rattle.frame_header.specs.Limits.{most_output_frames};
ghost use Rattle.frame_header.specs.Tables.{window_of};
ghost use Rattle.laying.specs.Fits.{FitsFromReach};
ghost use Rattle.laying.specs.NeedsFit.{IsPlacedSurvey};
ghost use Rattle.laying.specs.Written.{slot_in};
ghost use Rattle.info_header.specs.InfoFrame.{info_frame};
ghost use Rattle.frame_writer.specs.Frames.{Frame};
ghost use Rattle.slot_plan.specs.declared.needs.Placed.{Placed as PlacedFields};
ghost use Rattle.slot_plan.specs.Parts.{AreNeedsOfClass};
ghost use Rattle.slot_plan.specs.FreeBytes.{FitBehindWindow};
ghost use Rattle.slot_plan.specs.Plans.{entries};
ghost use Rattle.sync_survey.specs.Row.{Row};
ghost use Rattle.sync_survey.specs.Faults.{survey_view};
ghost use Rattle.commands.specs.SingleOutput.{most_frames};
ghost use Rattle.joined_inputs.specs.Planned.{info_kept, plan_of_splice_needs};

use arrayvec::ArrayVec;
use cut_edits::sealed_info_bytes;
use laying::{Kept, info_bytes};
use slot_plan::{Keep, Need, Placed, Plan, plan};
use std::alloc::{AllocError, Global};
use sync_survey::Survey;

/// The bytes of the Info frame before frames of a surveyed input in the slots of a plan, with what
/// it keeps of the heads, sealed if it keeps something. The first of the frames is frame `from`,
/// whose header it has.
pub fn splice_info_bytes(
    survey: &Survey,
    from: usize,
    kept: Option<Kept>,
    placed: &[Placed],
) -> ArrayVec<u8, 1441>
    requires well { IsPlacedSurvey (survey_view survey.now) }
    requires within { from < length (survey_view survey.now).frames }
    requires few { length placed.now ≤ most_output_frames }
    ensures { (first : Row) (frames : List Frame)
        → slice_get (survey_view survey.now).frames from ≡ Some first
        → map slot_in frames ≡ map (λ (p : PlacedFields). p.slot) placed.now
        → result.items ≡ info_frame first.header
        (info_kept kept first.header (survey_view survey.now).class frames) }
{
    let Some(kept) = kept else {
        return info_bytes(survey, from, &Kept::none(), placed);
    };
    sealed_info_bytes(survey, from, &kept, placed)
}

/// The plan of a splice, which is one part: each frame keeps the slot that it needs.
pub fn plan_splice(alloc: Global, needs: &[Need]) -> Result<Plan, AllocError>
    requires some { 0 < length needs.now }
    requires few { length needs.now ≤ most_frames }
    requires fits { FitBehindWindow needs.now }
    ensures plan { IfOk result (λ plan. (class : ClassFields) → AreNeedsOfClass class needs.now
        → entries plan ≡ plan_of_splice_needs (window_of class.version) needs.now) }
    ensures fits { IfOk result (λ plan. (class : ClassFields) → AreNeedsOfClass class needs.now
        → FitsFromReach (window_of class.version) 0 needs.now (entries plan)) }
{
    let header = &needs[0].header;
    // A look inside gives the proof that its class is one of the standard's.
    let _ = &header.slot;
    plan(alloc, needs, &[0], &Keep)
}
