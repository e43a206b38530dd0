//! Exact pieces: their plans, and their Info frames with delay, padding, music length and tag CRC.
ghost use Rattle.std.specs.Prelude.{◌≡◌, ◌+◌, ◌-◌, ◌<◌, ◌≤◌, List, ℕ, length, take, drop, map, option_copied, slice_get, Some, IfOk};
ghost use Rattle.frame_header.specs.Limits.{most_output_frames};
ghost use Rattle.frame_writer.specs.Frames.{Frame};
ghost use Rattle.slot_plan.specs.Plans.{entries};
ghost use Rattle.slot_plan.specs.declared.needs.Placed.{Placed as PlacedFields};
ghost use Rattle.sync_survey.specs.Row.{Row};
ghost use Rattle.sync_survey.specs.Faults.{survey_view};
ghost use Rattle.sync_survey.specs.Survey.{IsSurveyLaidOut};
ghost use Rattle.info_header.specs.InfoFrame.{info_frame};
ghost use Rattle.exact_span.specs.Spans.{IsSpan, AreLeads};
ghost use Rattle.exact_span.specs.TagWord.{text_offset, sealed_info};
ghost use Rattle.frame_header.specs.Tables.{window_of};
ghost use Rattle.laying.specs.NeedsFit.{IsPlacedSurvey};
ghost use Rattle.laying.specs.Fits.{IsFittingPlan};
ghost use Rattle.laying.specs.Laid.{selected_part, laid_part, needs_laid, IsWritableSelection};
ghost use Rattle.laying.specs.Surveys.{CanBeRelaid};
ghost use Rattle.laying.specs.Written.{slot_in, info_for};
ghost use Rattle.commands.specs.SingleOutput.{most_frames};
ghost use Rattle.cut_edits.specs.Chosen.{chosen_in, chosen_needs, AreChosenThere};
ghost use Rattle.cut_edits.specs.Exact.{span_plan, span_lead_ins, span_extension, quality_of, sealed_part, span_piece, IsSpanIn};

use crate::chosen::Chosen;
use crate::plans::{chosen_parts, plan_by};
use arrayvec::ArrayVec;
use exact_span::{Span, extension, seal};
use frame_header::Class;
use info_header::Info;
use laying::{Kept, Selected, has_all, info_bytes};
use slot_plan::{Keep, Placed, Plan, plan_led};
use std::alloc::{AllocError, Global};
use sync_survey::Survey;

/// Where the extension is, in bytes after the text of a head with all fields.
const EXTENSION_AT: usize = 120;

/// The plan of chosen frames in their own slots: with a lead-in if the span has to have one,
/// otherwise only if there is no layout without one.
fn plan_piece(
    alloc: Global,
    survey: &Survey,
    chosen: &Chosen,
    led: bool,
) -> Result<Plan, AllocError>
    requires there { AreChosenThere most_frames (chosen_in chosen.now) (survey_view survey.now) }
    ensures { IfOk result (λ plan. entries plan ≡ span_plan led (survey_view survey.now).class
        (chosen_needs (chosen_in chosen.now) (survey_view survey.now))) }
{
    if led {
        let parts = chosen_parts(alloc, survey, chosen)?;
        plan_led(alloc, parts.needs(), &Keep)
    } else {
        plan_by(alloc, survey, chosen, &Keep)
    }
}

/// The quality given by a head, if there is one.
pub fn quality_of(head: Option<&Info>) -> Option<u32>
    ensures { result ≡ quality_of (option_copied head.entry) }
{
    head?.quality
}

/// What the Info frame of a piece says besides its counts: the quality of the head, and its
/// extension with delay and padding of the span in the slots of a plan.
fn kept_of(class: Class, head: Option<&Info>, span: &Span, placed: &[Placed]) -> Kept
    requires span { IsSpan class span.now }
    requires some { span.now.first < span.now.last }
    requires many { span.now.last - span.now.first ≤ length placed.now }
    requires leads { AreLeads span.now (span_lead_ins span.now placed.now) }
    ensures { result ≡ record {
      quality = quality_of (option_copied head.entry);
      extension = span_extension (option_copied head.entry) class span.now placed.now;
    } }
{
    let leads = placed.len() - (span.last - span.first) as usize;
    let (delay, padding) = span.numbers(class, leads as u32);
    Kept {
        quality: quality_of(head),
        extension: extension(head, delay, padding),
    }
}

/// The extension in a whole Info frame before frames of this class.
fn extension_in(class: Class, frame: &[u8]) -> [u8; 36]
    requires { text_offset class + 156 ≤ length frame.now }
    ensures { result ≡ take 36 (drop (text_offset class + 120) frame.now) }
{
    let at = 4 + class.side_size() as usize + EXTENSION_AT;
    let mut extension = [0; 36];
    extension.copy_from_slice(&frame[at..at + 36]);
    extension
}

/// The bytes of the sealed Info frame before frames of a surveyed input in the slots of a plan. The
/// first of the frames is frame `from`, whose header it has.
pub fn sealed_info_bytes(
    survey: &Survey,
    from: usize,
    kept: &Kept,
    placed: &[Placed],
) -> ArrayVec<u8, 1441>
    requires well { IsPlacedSurvey (survey_view survey.now) }
    requires within { from < length (survey_view survey.now).frames }
    requires few { length placed.now ≤ most_output_frames }
    ensures room { text_offset (survey_view survey.now).class + 156 ≤ length result.items }
    ensures bytes { (first : Row) (frames : List Frame)
        → slice_get (survey_view survey.now).frames from ≡ Some first
        → map slot_in frames ≡ map (λ (p : PlacedFields). p.slot) placed.now
        → result.items ≡ info_frame first.header (sealed_info first.header (info_for (survey_view
        survey.now).class frames kept.now.quality kept.now.extension)) }
{
    has_all(&kept.extension);
    let mut info = info_bytes(survey, from, kept, placed);
    seal(survey.class(), &mut info);
    info
}

/// Frames of a surveyed input in the slots of a plan, with what their Info frame says besides its
/// counts. The Info frame has its music length and its tag CRC.
fn select_sealed(survey: &Survey, from: usize, to: usize, kept: Kept, plan: Plan) -> Selected
    requires placed { IsPlacedSurvey (survey_view survey.now) }
    requires some { from < to }
    requires within { to ≤ length (survey_view survey.now).frames }
    requires few { length (entries plan) ≤ most_output_frames }
    requires fitting { IsFittingPlan (window_of (survey_view survey.now).class.version)
        (needs_laid (laid_part from to kept (entries plan)) (survey_view survey.now))
        (entries plan) }
    ensures laid { (file : List ℕ) → CanBeRelaid file (survey_view survey.now)
        → selected_part result
        ≡ sealed_part (laid_part from to kept (entries plan)) file (survey_view survey.now) }
    ensures writable { IsWritableSelection (survey_view survey.now) result }
{
    has_all(&kept.extension);
    let info = sealed_info_bytes(survey, from, &kept, plan.placed());
    let extension = extension_in(survey.class(), info.as_slice());
    Selected {
        from,
        to,
        kept: Kept { extension, ..kept },
        plan,
        info,
    }
}

/// The frames of a span in the slots of their plan, and their sealed Info frame, which keeps those
/// fields of the head that it doesn't count.
///
/// # Errors
/// If memory runs out.
pub fn select_piece(
    alloc: Global,
    survey: &Survey,
    head: Option<&Info>,
    span: &Span,
) -> Result<Selected, AllocError>
    requires laid { IsSurveyLaidOut (survey_view survey.now) }
    requires few { length (survey_view survey.now).frames ≤ most_frames }
    requires there { IsSpanIn (survey_view survey.now) span.now }
    ensures laid { IfOk result
        (λ selected. (file : List ℕ) → CanBeRelaid file (survey_view survey.now)
        → selected_part selected
        ≡ span_piece (option_copied head.entry) span.now file (survey_view survey.now)) }
    ensures writable { IfOk result (IsWritableSelection (survey_view survey.now)) }
{
    let chosen = Chosen {
        from: span.first as usize,
        to: span.last as usize,
        kept: Kept::none(),
    };
    let plan = plan_piece(alloc, survey, &chosen, span.led)?;
    let kept = kept_of(survey.class(), head, span, plan.placed());
    Ok(select_sealed(survey, chosen.from, chosen.to, kept, plan))
}
