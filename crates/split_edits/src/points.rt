//! Files that are cut at positions.
ghost use Rattle.std.specs.Prelude.{None};
ghost use Rattle.cue_sheet.specs.Places.{IsPlace};
ghost use Rattle.split_edits.specs.Split.{cutting_of, ArePoints};

use crate::cut::Cut;
use crate::sheet::sheet_places;
use crate::source::SplitSource;
use commands::EditFault;
use cue_sheet::Place;
use cut_edits::{cut_choice, plan_file};
use laying::Selected;
use outside::Folder;
use std::alloc::Global;
use sync_survey::Survey;

/// Where a file is cut.
#[derive(Clone, Copy)]
pub enum Points<'a> {
    /// At these positions, 2 to 100: each but the last begins a piece, and the last ends the last
    /// piece.
    Places(&'a [Place]),
    /// At the start of each track in the cue sheet of this name, and at the end.
    Sheet(&'a str),
}

impl<'a> Cut for Points<'a> {
    type Place = Place;

    ghost cutting = { λ points. cutting_of points };

    ghost IsLegal = { λ points. ArePoints points };

    ghost IsSound = { λ place. IsPlace place };

    ghost head = { λ file s. None };

    fn sheet(&self) -> Option<&str> {
        match *self {
            Points::Places(_) => None,
            Points::Sheet(sheet) => Some(sheet),
        }
    }

    fn places<D: Folder>(&self, alloc: Global, folder: &mut D) -> Result<Vec<Place>, EditFault> {
        match *self {
            Points::Places(places) => Ok(places.to_vec(alloc)?),
            Points::Sheet(sheet) => sheet_places(alloc, folder, sheet),
        }
    }

    fn read<D: Folder>(
        &self,
        folder: &mut D,
        input: &str,
        survey: Survey,
    ) -> Result<SplitSource, EditFault> {
        Ok(SplitSource { survey, head: None })
    }

    fn select(
        &self,
        alloc: Global,
        source: &SplitSource,
        from: &Place,
        to: &Place,
    ) -> Result<Selected, EditFault> {
        let chosen = cut_choice(&source.survey, from, to)?;
        let selected = plan_file(alloc, &source.survey, &chosen, false)?;
        Ok(selected)
    }
}
