//! The parts of a file that stay, as ranges to be laid.
ghost use Rattle.std.specs.Prelude.{map};
ghost use Rattle.sync_survey.specs.Faults.{survey_view};
ghost use Rattle.remove_edits.specs.Ready.{part_range};

use joined_inputs::{LaidRange, LaidRanges};
use seam_plan::Part;
use sync_survey::Survey;

/// The parts that stay of an input with this name.
#[derive(Clone, Copy)]
pub(crate) struct LeftParts<'a> {
    pub name: &'a str,
    pub survey: &'a Survey,
    pub parts: &'a [Part],
}

impl<'a> LaidRanges for LeftParts<'a> {
    ghost ranges = { λ left. map (part_range left.name.now (survey_view left.survey.now))
        left.parts.now };

    fn count(&self) -> usize {
        self.parts.len()
    }

    fn range(&self, number: usize) -> LaidRange<'_> {
        let part = &self.parts[number];
        LaidRange {
            name: self.name,
            survey: self.survey,
            from: part.from as usize,
            to: part.to as usize,
        }
    }
}
