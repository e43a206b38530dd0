//! What is read of a damaged file, in the form in which it is written: frames that aren't sound are
//! empty.
ghost use Rattle.std.specs.Prelude.{◌≡◌, ◌≤◌, ◌++◌, length, option_to_list, IfOk, OnOk};
ghost use Rattle.sync_survey.specs.Faults.{survey_view};
ghost use Rattle.sync_survey.specs.HeadApart.{emptied_survey};
ghost use Rattle.sync_survey.specs.Survey.{IsSurveyLaidOut};
ghost use Rattle.salvage.specs.DamagedFiles.{damaged_view, most_frames};
ghost use Rattle.salvage.specs.Progress.{IsDamagedLaidOut};
ghost use Rattle.salvage.specs.EmptiedFrames.{emptied_frame, emptied_from};

use crate::damaged::Damaged;
use crate::gap::Gap;
use std::alloc::{AllocError, Global};
use sync_survey::{HasOffset, Row, Survey};

/// A frame that becomes an empty one: its number, counted from 0 without the head, and its offset in bytes.
#[derive(Clone, Copy, Debug, PartialEq, Eq)]
pub struct Emptied {
    pub number: u32,
    pub offset: u32,
}

impl HasOffset for Emptied {
    ghost offset_of = { λ e. e.offset };

    fn offset_in_file(&self) -> u64 {
        u64::from(self.offset)
    }
}

/// What is read of a damaged file, in the form in which it is written: a survey in which each frame
/// that isn't sound is one without main data, the list of these frames, and the gaps.
#[derive(Drop)]
pub struct Mended {
    pub survey: Survey,
    pub emptied: Vec<Emptied>,
    pub gaps: Vec<Gap>,
}

/// Adds the frame with this number if it becomes an empty one.
///
/// # Errors
/// If memory runs out.
fn push_emptied(emptied: &mut Vec<Emptied>, number: u32, row: &Row) -> Result<(), AllocError>
    ensures { OnOk result (emptied.new.items ≡ emptied.old.items
        ++ option_to_list (emptied_frame number row.now)) }
{
    if row.lost() {
        let offset = row.offset();
        emptied.push(Emptied { number, offset })?;
    }
    Ok(())
}

/// The frames that become empty ones.
///
/// # Errors
/// If memory runs out.
fn emptied_of(alloc: Global, rows: &[Row]) -> Result<Vec<Emptied>, AllocError>
    requires few { length rows.now ≤ most_frames }
    ensures { IfOk result (λ list. list.items ≡ emptied_from 0 rows.now) }
{
    let mut emptied = Vec::new(alloc);
    let mut number = 0;
    while number < rows.len() {
        push_emptied(&mut emptied, number as u32, &rows[number])?;
        number += 1;
    }
    Ok(emptied)
}

/// Makes each frame that isn't sound an empty one. `known` lists the frames that become empty ones.
fn empty_known(survey: &mut Survey, known: &[Emptied])
    requires { known.now ≡ emptied_from 0 (survey_view survey.old).frames }
    ensures { survey_view survey.new ≡ emptied_survey (survey_view survey.old) }
{
    if !known.is_empty() {
        survey.empty_lost();
    }
}

impl Damaged {
    /// What was read, in the form in which it is written.
    ///
    /// # Errors
    /// If memory runs out.
    pub fn mend(self, alloc: Global) -> Result<Mended, AllocError>
        requires { IsDamagedLaidOut (damaged_view self) }
        ensures survey { IfOk result
            (λ m. survey_view m.survey ≡ emptied_survey (damaged_view self).survey) }
        ensures laid { IfOk result (λ m. IsSurveyLaidOut (survey_view m.survey)) }
        ensures emptied { IfOk result (λ m. m.emptied.items
            ≡ emptied_from 0 (damaged_view self).survey.frames) }
        ensures gaps { IfOk result (λ m. m.gaps.items ≡ (damaged_view self).gaps) }
    {
        let Damaged { mut survey, gaps } = self;
        let emptied = emptied_of(alloc, &survey.frames)?;
        empty_known(&mut survey, &emptied);
        Ok(Mended {
            survey,
            emptied,
            gaps,
        })
    }
}
