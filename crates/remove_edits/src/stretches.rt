//! The parts of a file that stay.
ghost use Rattle.std.specs.Prelude.{◌≡◌, ◌≤◌, length, Ok, Err, MatchResult, IfOk, IfErr};
ghost use Rattle.seam_plan.specs.Stretches.{AreInOrder};
ghost use Rattle.sync_survey.specs.Faults.{survey_view};
ghost use Rattle.commands.specs.AfterCall.{IsEditRefusal};
ghost use Rattle.commands.specs.SingleOutput.{most_frames};
ghost use Rattle.cut_edits.specs.Chosen.{cut_refuses};
ghost use Rattle.remove_edits.specs.Removed.{all_stretch_frames, parts_left};
ghost use Rattle.remove_edits.specs.Ready.{AreExactStretches};

use arrayvec::ArrayVec;
use commands::{EditFault, Refusal};
use exact_span::ExactPlace;
use frame_header::Class;
use seam_plan::{Part, parts_that_stay};
use sync_survey::Survey;

/// The numbers of stretches in a file of this class with `frames` frames.
fn stretch_frames(
    class: Class,
    frames: u32,
    stretches: &[(ExactPlace, ExactPlace)],
) -> ArrayVec<(u64, u64), 50>
    requires few { length stretches.now ≤ 50 }
    requires exact { AreExactStretches stretches.now }
    ensures { result.items ≡ all_stretch_frames class frames stretches.now }
{
    let mut numbers = ArrayVec::new();
    for (from, to) in stretches {
        numbers.push((from.frame_of(class, frames), to.frame_of(class, frames)));
    }
    numbers
}

/// The parts that stay of a surveyed file without these stretches, at least one.
///
/// # Errors
/// `Range` with the first two neighbours among the numbers of the stretches that aren't in order, or
/// with 0 and the number of all frames if no frame stays.
#[tactic(auto, unfolding(crate::specs::Removed::parts_left))]
pub(crate) fn parts_left(
    survey: &Survey,
    stretches: &[(ExactPlace, ExactPlace)],
) -> Result<ArrayVec<Part, 51>, EditFault>
    requires few { length stretches.now ≤ 50 }
    requires exact { AreExactStretches stretches.now }
    requires frames { length (survey_view survey.now).frames ≤ most_frames }
    ensures parts { MatchResult result
        (λ parts. parts_left stretches.now (survey_view survey.now) ≡ Ok parts.items)
        (λ fault. parts_left stretches.now (survey_view survey.now) ≡ Err fault) }
    ensures there { IfOk result (λ parts. (1 ≤ length parts.items)
        × AreInOrder 0 (length (survey_view survey.now).frames) parts.items) }
    ensures refusal { IfErr result (IsEditRefusal cut_refuses) }
{
    let frames = survey.frames().len();
    let numbers = stretch_frames(survey.class(), frames as u32, stretches);
    match parts_that_stay(numbers.as_slice(), frames as u32) {
        Ok(parts) => Ok(parts),
        Err((from, to)) => Err(Refusal::Range(from, to, frames as u64).into()),
    }
}
