//! The plan of chosen frames, and the Info frame before them.
ghost use Rattle.std.specs.Prelude.{◌≡◌, ◌<◌, ◌≤◌, [], ◌∷◌, length, IfOk};
ghost use Rattle.laying.specs.Needs.{plan_input};
ghost use Rattle.slot_plan.specs.Plans.{entries};
ghost use Rattle.sync_survey.specs.Faults.{survey_view};
ghost use Rattle.commands.specs.SingleOutput.{most_frames};
ghost use Rattle.cut_edits.specs.Chosen.{chosen_in, chosen_rows, slot_choices, first_plan, chosen_needs, AreChosenThere, AreUsualChoices, IsSelected};

use crate::chosen::Chosen;
use laying::{Parts, Selected};
use slot_plan::{Keep, Least, Plan, Policy, plan};
use std::alloc::{AllocError, Global};
use sync_survey::Survey;

/// Chosen frames as the one part of a plan.
pub fn chosen_parts(alloc: Global, survey: &Survey, chosen: &Chosen) -> Result<Parts, AllocError>
    requires some { chosen.now.from < chosen.now.to }
    requires within { chosen.now.to ≤ length (survey_view survey.now).frames }
    ensures parts { IfOk result (λ parts. parts
        ≡ plan_input (chosen_rows (chosen_in chosen.now) (survey_view survey.now) ∷ [])) }
    ensures needs { IfOk result (λ parts. length parts.needs
        ≤ length (survey_view survey.now).frames) }
    ensures places { IfOk result (λ parts. length parts.places ≡ 1) }
{
    let mut parts = Parts::new(alloc);
    parts.push(&survey.frames()[chosen.from..chosen.to])?;
    Ok(parts)
}

/// The plan of chosen frames, made by a policy.
pub(crate) fn plan_by<P: Policy>(
    alloc: Global,
    survey: &Survey,
    chosen: &Chosen,
    policy: &P,
) -> Result<Plan, AllocError>
    requires there { AreChosenThere most_frames (chosen_in chosen.now) (survey_view survey.now) }
    requires policy { AreUsualChoices (P.choices_of policy.now) }
    ensures { IfOk result (λ plan. entries plan ≡ first_plan (P.choices_of policy.now)
        (survey_view survey.now).class
        (chosen_needs (chosen_in chosen.now) (survey_view survey.now))) }
{
    let parts = chosen_parts(alloc, survey, chosen)?;
    plan(alloc, parts.needs(), parts.places(), policy)
}

/// The plan of chosen frames: each gets the least slot, or keeps its own.
fn plan_chosen(
    alloc: Global,
    survey: &Survey,
    chosen: &Chosen,
    least: bool,
) -> Result<Plan, AllocError>
    requires { AreChosenThere most_frames (chosen_in chosen.now) (survey_view survey.now) }
    ensures { IfOk result (λ plan. entries plan ≡ first_plan (slot_choices least)
        (survey_view survey.now).class
        (chosen_needs (chosen_in chosen.now) (survey_view survey.now))) }
{
    if least {
        plan_by(alloc, survey, chosen, &Least)
    } else {
        plan_by(alloc, survey, chosen, &Keep)
    }
}

/// Chosen frames with their plan, in which each gets the least slot or keeps its own, and their
/// Info frame.
pub fn plan_file(
    alloc: Global,
    survey: &Survey,
    chosen: &Chosen,
    least: bool,
) -> Result<Selected, AllocError>
    requires { AreChosenThere most_frames (chosen_in chosen.now) (survey_view survey.now) }
    ensures { IfOk result (IsSelected (slot_choices least) (chosen_in chosen.now)
        (survey_view survey.now)) }
{
    let plan = plan_chosen(alloc, survey, chosen, least)?;
    Ok(Selected::new(survey, chosen.from, chosen.to, chosen.kept, plan))
}
