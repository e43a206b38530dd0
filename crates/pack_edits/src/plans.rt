//! The plan of all frames of a file in a mode, and the Info frame before them.
ghost use Rattle.std.specs.Prelude.{◌≡◌, ◌≤◌, length, None, Ok, IfOk, IfErr, MatchResult};
ghost use Rattle.frame_header.specs.Tables.{window_of};
ghost use Rattle.slot_plan.specs.Parts.{AreNeedsOfClass};
ghost use Rattle.slot_plan.specs.Plans.{entries};
ghost use Rattle.rate_plan.specs.LeastMenuPlan.{least_menu_plan, IsMenuFault};
ghost use Rattle.sync_survey.specs.Faults.{survey_view};
ghost use Rattle.commands.specs.SingleOutput.{most_frames};
ghost use Rattle.cut_edits.specs.Chosen.{chosen_in, chosen_needs, planned_part, AreChosenThere};
ghost use Rattle.laying.specs.Laid.{selected_part, IsWritableSelection};
ghost use Rattle.pack_edits.specs.Answers.{IsPlanFault};
ghost use Rattle.pack_edits.specs.Rates.{no_rate, rate_edit_fault, menu_in};
ghost use Rattle.pack_edits.specs.Modes.{allowed_frames, mode_planning, mode_refuses};

use crate::menu::menu_of;
use best_plan::best;
use commands::{EditFault, Refusal};
use cut_edits::{Chosen, chosen_parts};
use frame_header::Class;
use laying::Selected;
use rate_plan::{RateFault, rate_plan};
use requests::PackMode;
use slot_plan::{Least, Need, Plan, plan};
use std::alloc::Global;
use sync_survey::Survey;

/// `NoRate` if the mode names a bit rate, in kbit/s, that no slot of the class has.
fn no_rate(mode: PackMode, class: Class) -> Option<Refusal>
    ensures { result ≡ no_rate mode class }
{
    let rate = match mode {
        PackMode::Least | PackMode::Best => return None,
        PackMode::Constant(rate) | PackMode::Floor(rate) => rate,
    };
    if menu_of(PackMode::Constant(rate), class).is_empty() {
        Some(Refusal::NoRate(rate))
    } else {
        None
    }
}

/// A fault of the planner as a fault of a command.
fn of_rate(fault: RateFault) -> EditFault
    ensures { result ≡ rate_edit_fault fault }
{
    match fault {
        RateFault::Unfit(i) => EditFault::Refused(Refusal::Unfit(i)),
        RateFault::Memory => EditFault::Memory,
    }
}

/// The plan of frames with slots whose bit rates the mode allows: `Unfit` with the first frame up
/// to which there is no room for the main data; `Memory`.
fn plan_menu(alloc: Global, class: Class, needs: &[Need], mode: PackMode) -> Result<Plan, RateFault>
    requires class { AreNeedsOfClass class needs.now }
    requires some { 1 ≤ length needs.now }
    requires few { length needs.now ≤ most_frames }
    requires named { no_rate mode class ≡ None }
    ensures { MatchResult result
        (λ plan. least_menu_plan (window_of class.version) (menu_in mode class) needs.now
        ≡ Ok (entries plan))
        (IsMenuFault (least_menu_plan (window_of class.version) (menu_in mode class) needs.now)) }
{
    let menu = menu_of(mode, class);
    rate_plan(alloc, needs, menu.as_slice())
}

/// The plan of chosen frames in a mode.
fn plan_by(
    alloc: Global,
    survey: &Survey,
    chosen: &Chosen,
    mode: PackMode,
) -> Result<Plan, EditFault>
    requires { AreChosenThere (allowed_frames mode) (chosen_in chosen.now)
        (survey_view survey.now) }
    ensures { MatchResult result
        (λ plan. mode_planning mode (survey_view survey.now).class
        (chosen_needs (chosen_in chosen.now) (survey_view survey.now)) ≡ Ok (entries plan))
        (IsPlanFault (mode_planning mode) (mode_refuses mode) (survey_view survey.now).class
        (chosen_needs (chosen_in chosen.now) (survey_view survey.now))) }
{
    let class = survey.class();
    if let Some(refusal) = no_rate(mode, class) {
        return Err(refusal.into());
    }
    let parts = chosen_parts(alloc, survey, chosen)?;
    let needs = parts.needs();
    match mode {
        PackMode::Least => {
            let plan = plan(alloc, needs, parts.places(), &Least)?;
            Ok(plan)
        }
        PackMode::Best => {
            let shortest = best(alloc, needs, &Least)?;
            Ok(shortest)
        }
        PackMode::Constant(_) | PackMode::Floor(_) => {
            match plan_menu(alloc, class, needs, mode) {
                Ok(plan) => Ok(plan),
                Err(fault) => Err(of_rate(fault)),
            }
        }
    }
}

/// Chosen frames with their plan in a mode, and their Info frame.
///
/// # Errors
/// `NoRate` if the mode names what isn't a bit rate of the class, and `Unfit` if the frames don't
/// fit; `Memory`.
pub(crate) fn plan_packed(
    alloc: Global,
    survey: &Survey,
    chosen: &Chosen,
    mode: PackMode,
) -> Result<Selected, EditFault>
    requires { AreChosenThere (allowed_frames mode) (chosen_in chosen.now)
        (survey_view survey.now) }
    ensures laid { IfOk result (λ l. planned_part (mode_planning mode) (survey_view survey.now)
        (chosen_in chosen.now) ≡ Ok (selected_part l)) }
    ensures writable { IfOk result (IsWritableSelection (survey_view survey.now)) }
    ensures refused { IfErr result (IsPlanFault (mode_planning mode) (mode_refuses mode)
        (survey_view survey.now).class (chosen_needs (chosen_in chosen.now)
        (survey_view survey.now))) }
{
    let plan = plan_by(alloc, survey, chosen, mode)?;
    Ok(Selected::new(survey, chosen.from, chosen.to, chosen.kept, plan))
}
