//! The frames for the samples between two places.
ghost use Rattle.std.specs.Prelude.{◌≡◌, ◌*◌, ◌≤◌, length, option_copied, Ok, Err, MatchResult, IfOk, IfErr};
ghost use Rattle.exact_span.specs.Places.{IsExactPlace};
ghost use Rattle.exact_span.specs.PlayedPositions.{samples_in};
ghost use Rattle.sync_survey.specs.Faults.{survey_view};
ghost use Rattle.commands.specs.AfterCall.{IsEditRefusal};
ghost use Rattle.commands.specs.SingleOutput.{most_frames};
ghost use Rattle.cut_edits.specs.Exact.{span_between, file_span, exact_refuses, IsSpanIn};

use commands::{EditFault, Refusal};
use exact_span::{ExactPlace, Played, Span};
use frame_header::Class;
use info_header::Info;
use sync_survey::Survey;

/// The span of the samples from one place to another, if these positions are played: `Span` if
/// there is none between them, or if the second is after the last.
fn span_between(
    class: Class,
    played: &Played,
    from: &ExactPlace,
    to: &ExactPlace,
) -> Result<Span, EditFault>
    requires from { IsExactPlace from.now }
    requires to { IsExactPlace to.now }
    requires most { played.now.end ≤ most_frames * samples_in class }
    ensures span { MatchResult result
        (λ span. span_between class played.now from.now to.now ≡ Ok span)
        (λ fault. span_between class played.now from.now to.now ≡ Err fault) }
    ensures refusal { IfErr result (IsEditRefusal exact_refuses) }
{
    let samples = played.length();
    let a = from.sample(class, samples);
    let b = to.sample(class, samples);
    if a < b && b <= samples {
        Ok(Span::of(class, played.start + a, played.start + b))
    } else {
        Err(Refusal::Span(a, b, samples).into())
    }
}

/// The span of the samples from one place to another of a surveyed file with this head: `Span` if
/// there is none between them, or if the second is after the last that is played.
pub fn find_span(
    survey: &Survey,
    head: Option<&Info>,
    from: &ExactPlace,
    to: &ExactPlace,
) -> Result<Span, EditFault>
    requires from { IsExactPlace from.now }
    requires to { IsExactPlace to.now }
    requires few { length (survey_view survey.now).frames ≤ most_frames }
    ensures span { MatchResult result
        (λ span. file_span from.now to.now (option_copied head.entry) (survey_view survey.now)
        ≡ Ok span)
        (λ fault. file_span from.now to.now (option_copied head.entry) (survey_view survey.now)
        ≡ Err fault) }
    ensures there { IfOk result (IsSpanIn (survey_view survey.now)) }
    ensures refusal { IfErr result (IsEditRefusal exact_refuses) }
{
    let class = survey.class();
    let frames = survey.frames().len() as u32;
    let played = Played::of(head, class, frames);
    span_between(class, &played, from, to)
}
