//! Files worked out by hand: a frame of 417 bytes has an area of 381 (MPEG-1, 44,100 Hz, 128 kbit/s, stereo).
ghost use Rattle.std.specs.Prelude.{◌<◌, ◌≤◌, length, IfOk};
ghost use Rattle.sync_survey.specs.Faults.{survey_view};
ghost use Rattle.sync_survey.specs.Survey.{IsSurveyLaidOut};

use laying::{Parts, one_part_fits};
use outside::{Folder, MemFolder};
use slot_plan::{Keep, Need, Placed, Plan, plan};
use std::alloc::{AllocError, AllocGlobal};
use std::process::Abort;
use std::test::Fail;
use sync_survey::{Survey, survey};
use test_files::files::{Stretch, bytes_of};
use test_files::table;

/// The bit rate index of 128 kbit/s, and the index of 32.
const OWN: u8 = 9;

const LEAST: u8 = 1;

/// A lost frame, one with 301 bytes of main data, and one with 400 that begin right after those.
static FILE: [Stretch; 3] = [
    Stretch::Frame(10, 800),
    Stretch::Frame(0, 2401),
    Stretch::Frame(80, 3200),
];

/// The survey of the file.
fn surveyed<R: Abort + AllocGlobal, D: Folder>(rt: &R, folder: &mut D) -> Survey
    ensures { IsSurveyLaidOut (survey_view result) }
{
    match survey(rt.alloc(), folder, "a", 100) {
        Ok(survey) => survey,
        Err(_) => panic!(rt; "no survey"),
    }
}

/// The plan of the frames from one up to, but not including, another, each in its own slot.
fn plan_between<R: Abort + AllocGlobal>(
    rt: &R,
    survey: &Survey,
    from: usize,
    to: usize,
) -> Result<Plan, AllocError>
    requires laid { IsSurveyLaidOut (survey_view survey.now) }
    requires some { from < to }
    requires within { to ≤ length (survey_view survey.now).frames }
{
    let frames = survey.frames();
    assert!(rt; frames.len() <= 2_900_000);
    let mut parts = Parts::new(rt.alloc());
    parts.push(&frames[from..to])?;
    one_part_fits();
    plan(rt.alloc(), parts.needs(), parts.places(), &Keep)
}

/// A frame of a plan: whether it is a lead-in, its bit rate index, and its main_data_begin in bytes.
struct Planned(bool, u8, u16);

/// The frames from this one to the end, and their plan.
struct Case {
    from: usize,
    placed: &'static [Planned],
}

static CASES: [Case; 3] = table! {
    Case { from, placed }
    // The lost frame has no main data, so the next frame's begin in its area, and so on.
    (0, &[Planned(false, OWN, 0), Planned(false, OWN, 381), Planned(false, OWN, 461)])
    (1, &[Planned(false, OWN, 0), Planned(false, OWN, 80)])
    // 19 bytes are missing: a lead-in with an area of 68.
    (2, &[Planned(true, LEAST, 0), Planned(false, OWN, 68)])
};

fn is_planned(frame: &Placed, wanted: &Planned) -> bool {
    frame.lead_in == wanted.0
        && frame.slot.rate_index == wanted.1
        && !frame.slot.padding
        && frame.begin == wanted.2
}

/// Whether the plan has these frames.
fn are_planned(placed: &[Placed], wanted: &[Planned]) -> bool {
    placed.len() == wanted.len()
        && placed
            .iter()
            .zip(wanted)
            .all(|(frame, planned)| is_planned(frame, planned))
}

fn expect_case<R: Abort + AllocGlobal>(
    rt: &R,
    survey: &Survey,
    case: &Case,
) -> Result<(), AllocError>
    requires { IsSurveyLaidOut (survey_view survey.now) }
{
    let to = survey.frames().len();
    assert!(rt; to == 3 && case.from < to);
    let plan = plan_between(rt, survey, case.from, to)?;
    assert!(rt;
        are_planned(plan.placed(), case.placed),
        "from {}",
        case.from
    );
    Ok(())
}

/// The survey of the file, in a folder.
fn survey_of_file<R: Abort + AllocGlobal>(rt: &R) -> Result<Survey, AllocError>
    ensures { IfOk result (λ survey. IsSurveyLaidOut (survey_view survey)) }
{
    let file = bytes_of(rt.alloc(), &FILE)?;
    let mut folder = MemFolder::new(rt.alloc());
    folder.put("a", &file)?;
    Ok(surveyed(rt, &mut folder))
}

#[test]
fn parts_of_a_file(rt: HostRuntime) -> Result<(), Fail> {
    let survey = survey_of_file(&rt)?;
    for case in &CASES {
        expect_case(&rt, &survey, case)?;
    }
    Ok(())
}

/// Whether the parts need these numbers of bytes in the slots that the frames have.
fn are_needed(needs: &[Need], bytes: &[u32]) -> bool {
    needs.len() == bytes.len()
        && needs.iter().zip(bytes).all(|(need, wanted)| need.bytes == *wanted
            && need.header.slot.rate_index == OWN)
}

/// Two parts, the second with one frame.
#[test]
fn two_parts(rt: HostRuntime) -> Result<(), Fail> {
    let survey = survey_of_file(&rt)?;
    let frames = survey.frames();
    assert!(rt; frames.len() == 3);
    let mut parts = Parts::new(rt.alloc());
    parts.push(&frames[..2])?;
    assert!(rt; parts.needs().len() < 10);
    parts.push(&frames[2..])?;
    assert!(rt; parts.places() == [0, 2].as_slice() && are_needed(parts.needs(), &[0, 301, 400]));
    Ok(())
}
