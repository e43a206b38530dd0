//! The survey of a file of a folder.
ghost use Rattle.std.specs.Prelude.{◌≡◌, Some, ◌≤◌, ◌<◌, length, IfOk, IfErr, OnOk};
ghost use Rattle.outside.specs.Files.{IsFileThere};
ghost use Rattle.outside.specs.Counts.{OnlyReads};
ghost use Rattle.outside.specs.Feed.{IsFedFrom};
ghost use Rattle.sync_survey.specs.Items.{item_front};
ghost use Rattle.sync_survey.specs.Walk.{fault_at};
ghost use Rattle.sync_survey.specs.Faults.{survey_view};
ghost use Rattle.sync_survey.specs.SurveyFaultKinds.{HasRightNumbers, RefusesRightly};
ghost use Rattle.sync_survey.specs.Survey.{HoldsOctets, IsSurveyOf, IsWholeSurvey, IsFirstFault, IsSurveyRefusal, IsSurveyFault, IsSurveyLaidOut};
ghost use Rattle.sync_survey.specs.WalkBeginning.{IsWalk};
ghost use Rattle.sync_survey.specs.Answers.{FramesAnswer, SurveyAnswer};

use crate::found::SurveySoFar;
use crate::fronts::pass_front;
use crate::heads::{find_head, head_area, numbered_from};
use crate::looks::{find_length, look};
use crate::places::{Head, Piece, Start};
use crate::rows::ReservoirState;
use crate::starts::find_start;
use crate::survey_fault::SurveyFault;
use crate::surveys::Survey;
use outside::{Feed, Folder};
use std::alloc::Global;

/// What is known of a file before its frames are judged: its length in bytes, where its stream begins, its
/// head, and the blocks before the first frame.
#[derive(Drop)]
pub(crate) struct Walk {
    pub(crate) size: u64,
    pub(crate) start: Start,
    pub(crate) head: Option<Head>,
    pub(crate) pieces: Vec<Piece>,
}

/// Surveys a file of which this much is known: judges its frames in order.
///
/// # Errors
/// The first fault from the first frame on, or `Read`, `Shrunk` or `Memory`.
fn judge_frames<D: Folder>(
    alloc: Global,
    feed: &mut Feed,
    folder: &mut D,
    name: &str,
    walk: Walk,
    allowed: u32,
) -> Result<Survey, SurveyFault>
    requires fed { IsFedFrom feed.old (D.seen folder.old).files name.now }
    requires walk { IsWalk (D.seen folder.old).files name.now walk }
    ensures { FramesAnswer name.now allowed (D.seen folder.old) (D.seen folder.new) result }
{
    let Walk {
        size,
        start,
        head,
        pieces,
    } = walk;
    let class = start.first.header.class();
    let mut at = numbered_from(&start.first, &head);
    let mut found = SurveySoFar {
        rows: Vec::new(alloc),
        pieces,
        before: ReservoirState {
            place: head_area(&head),
            ended: 0,
        },
    };
    while at < size {
        let left = look(feed, folder, name, size, at)?;
        at += found.pass(at, feed.bytes(), left, class, allowed)?;
    }
    if found.rows.is_empty() {
        return Err(SurveyFault::NoFrame(size));
    }
    Ok(Survey {
        frames: found.rows,
        blocks: found.pieces,
        head,
        start,
        length: size,
    })
}

/// Surveys a file as `survey` does.
fn survey_file<D: Folder>(
    alloc: Global,
    folder: &mut D,
    name: &str,
    allowed: u32,
) -> Result<Survey, SurveyFault>
    ensures there { OnOk result (IsFileThere (D.seen folder.old).files name.now) }
    ensures octets { OnOk result (HoldsOctets name.now (D.seen folder.old).files) }
    ensures frames { FramesAnswer name.now allowed (D.seen folder.old) (D.seen folder.new) result }
{
    let size = find_length(folder, name)?;
    let mut feed = Feed::new(alloc)?;
    let mut pieces = Vec::new(alloc);
    let front_end = pass_front(&mut feed, folder, name, size, &mut pieces)?;
    let start = find_start(&mut feed, folder, name, size, front_end)?;
    let head = find_head(&mut feed, folder, name, size, &start.first)?;
    let walk = Walk {
        size,
        start,
        head,
        pieces,
    };
    judge_frames(alloc, &mut feed, folder, name, walk, allowed)
}

/// Surveys a file that may have `allowed` frames, not counting the head. The files are unchanged.
///
/// # Errors
/// - `Absent` if the file isn't there;
/// - `TooLong` with its length, before any byte is read, if it has more than 1,073,741,824 bytes;
/// - `Read` if a call failed;
/// - `Shrunk` if a read returned no byte before the length with which the file was found, which
///   happens only where the content of the files isn't known;
/// - otherwise the fault of its bytes that has the smallest offset, and of several at one offset
///   the first in the order of `SurveyFault`: `NoFrame`, `LostSync`, `Truncated`, `FreeFormat`, and
///   for a frame `Mixed`, `CheckWord`, `BackPointer`, `Overlap`, `Overrun`, `TooManyFrames`;
/// - `Memory` if memory runs out, which may happen once the length is known, before a fault of the
///   bytes is met.
pub fn survey<D: Folder>(
    alloc: Global,
    folder: &mut D,
    name: &str,
    allowed: u32,
) -> Result<Survey, SurveyFault>
    ensures { SurveyAnswer name.now allowed (D.seen folder.old) (D.seen folder.new) result }
{
    survey_file(alloc, folder, name, allowed)
}
