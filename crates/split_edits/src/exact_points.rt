//! Files that are cut at places of samples.
ghost use Rattle.std.specs.Prelude.{◌≡◌, map, IfOk};
ghost use Rattle.exact_span.specs.declared.exact_place.ExactPlace.TheVariants.{Place as Position};
ghost use Rattle.exact_span.specs.Places.{IsExactPlace};
ghost use Rattle.laying.specs.KeptFields.{fields_of_head};
ghost use Rattle.split_edits.specs.Split.{exact_cutting_of, AreExactPoints};

use crate::cut::Cut;
use crate::sheet::sheet_places;
use crate::source::SplitSource;
use commands::EditFault;
use cue_sheet::Place;
use cut_edits::{find_span, read_head, select_piece, set_apart};
use exact_span::ExactPlace;
use laying::Selected;
use outside::Folder;
use std::alloc::{AllocError, Global};
use sync_survey::Survey;

/// Where a file is cut, to a sample.
#[derive(Clone, Copy)]
pub enum ExactPoints<'a> {
    /// At these places, 2 to 100: each but the last begins a piece, and the last ends the last
    /// piece.
    Places(&'a [ExactPlace]),
    /// At the start of each track in the cue sheet of this name, and at the end.
    Sheet(&'a str),
}

/// Positions as places of samples.
fn exact_places(alloc: Global, positions: &[Place]) -> Result<Vec<ExactPlace>, AllocError>
    ensures { IfOk result (λ places. places.items ≡ map Position positions.now) }
{
    let mut places = Vec::new(alloc);
    for position in positions {
        places.push(ExactPlace::Place(*position))?;
    }
    Ok(places)
}

impl<'a> Cut for ExactPoints<'a> {
    type Place = ExactPlace;

    ghost cutting = { λ points. exact_cutting_of points };

    ghost IsLegal = { λ points. AreExactPoints points };

    ghost IsSound = { λ place. IsExactPlace place };

    ghost head = { λ file s. fields_of_head file s.head };

    fn sheet(&self) -> Option<&str> {
        match *self {
            ExactPoints::Places(_) => None,
            ExactPoints::Sheet(sheet) => Some(sheet),
        }
    }

    fn places<D: Folder>(
        &self,
        alloc: Global,
        folder: &mut D,
    ) -> Result<Vec<ExactPlace>, EditFault> {
        match *self {
            ExactPoints::Places(places) => Ok(places.to_vec(alloc)?),
            ExactPoints::Sheet(sheet) => {
                let positions = sheet_places(alloc, folder, sheet)?;
                let places = exact_places(alloc, positions.as_slice())?;
                Ok(places)
            }
        }
    }

    fn read<D: Folder>(
        &self,
        folder: &mut D,
        input: &str,
        survey: Survey,
    ) -> Result<SplitSource, EditFault> {
        let head = read_head(folder, input, &survey)?;
        let mut survey = survey;
        set_apart(&mut survey);
        Ok(SplitSource { survey, head })
    }

    fn select(
        &self,
        alloc: Global,
        source: &SplitSource,
        from: &ExactPlace,
        to: &ExactPlace,
    ) -> Result<Selected, EditFault> {
        let head = source.head.as_ref();
        let span = find_span(&source.survey, head, from, to)?;
        let selected = select_piece(alloc, &source.survey, head, &span)?;
        Ok(selected)
    }
}
