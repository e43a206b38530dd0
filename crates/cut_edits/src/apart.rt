//! The stream of a file whose head is set apart.
ghost use Rattle.std.specs.Prelude.{◌≡◌};
ghost use Rattle.sync_survey.specs.Faults.{survey_view};
ghost use Rattle.cut_edits.specs.Exact.{survey_without_head};

use sync_survey::Survey;

/// Sets the head apart from the stream, as players do: a frame whose main data begin in the head's
/// area is lost too, if every frame before it is silent or lost. All lost frames become empty.
pub fn set_apart(survey: &mut Survey)
    ensures { survey_view survey.new ≡ survey_without_head (survey_view survey.old) }
{
    survey.head_apart();
    survey.empty_lost();
}
