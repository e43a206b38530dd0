//! Pieces that are prepared to be written.
ghost use Rattle.std.specs.Prelude.{◌≡◌, ◌⊎◌, ◌+◌, ◌≤◌, List, ℕ, length, map, Ok, Err, IfOk, IfErr, MatchResult, string_bytes};
ghost use Rattle.sync_survey.specs.Faults.{survey_view, SurveyFields};
ghost use Rattle.sync_survey.specs.Survey.{IsSurveyLaidOut};
ghost use Rattle.laying.specs.Laid.{IsWritableSelection};
ghost use Rattle.commands.specs.SingleOutput.{most_frames};
ghost use Rattle.commands.specs.AfterCall.{IsEditRefusal};
ghost use Rattle.requests.specs.Names.{piece_name};
ghost use Rattle.split_edits.specs.Cutting.{piece_parts, ArePlaces};
ghost use Rattle.split_edits.specs.Steps.{IsSplitSource, ArePieces, piece_part};

use crate::cut::Cut;
use crate::source::SplitSource;
use commands::EditFault;
use laying::Selected;
use requests::piece_name;
use std::alloc::Global;
use std::convert::AsStr;

/// A piece to be written: its name, and its frames with their plan.
#[derive(Drop)]
pub(crate) struct PlannedPiece {
    pub name: String,
    pub selected: Selected,
}

impl PlannedPiece {
    /// These frames as the piece with this number, from 1 to 99.
    ///
    /// # Errors
    /// `Memory`.
    fn numbered(
        alloc: Global,
        prefix: &str,
        number: u8,
        selected: Selected,
    ) -> Result<PlannedPiece, EditFault>
        requires { number ≤ 99 }
        ensures name { IfOk result (λ piece. string_bytes piece.name ≡
            piece_name prefix.now number) }
        ensures selected { IfOk result (λ piece. piece.selected ≡ selected) }
        ensures memory { IfErr result (λ fault. fault ≡ EditFault.Memory) }
    {
        Ok(PlannedPiece {
            name: piece_name(alloc, prefix, number)?,
            selected,
        })
    }
}

impl AsStr for PlannedPiece {
    ghost text = { λ piece. string_bytes piece.name };

    fn as_str(&self) -> &str {
        self.name.as_str()
    }
}

/// The pieces from each place to the next: refused as `Cut::select` says, for the first pair that
/// is refused; `Memory`.
pub(crate) fn make_pieces<C: Cut>(
    alloc: Global,
    cut: &C,
    source: &SplitSource,
    places: &[C::Place],
    prefix: &str,
) -> Result<Vec<PlannedPiece>, EditFault>
    requires places { ArePlaces C.IsSound places.now }
    requires laid { IsSurveyLaidOut (survey_view source.now.survey) }
    requires few { length (survey_view source.now.survey).frames ≤ most_frames }
    ensures pieces { IfOk result (λ pieces. ArePieces prefix.now (survey_view source.now.survey) 1
        pieces.items) }
    ensures count { IfOk result (λ pieces. length pieces.items + 1 ≡ length places.now) }
    ensures laid { MatchResult result
        (λ pieces. (file : List ℕ) (s : SurveyFields)
        → IsSplitSource (C.cutting cut.now) C.head source.now file s
        → piece_parts (C.cutting cut.now) file s places.now ≡ Ok (map piece_part pieces.items))
        (λ fault. (fault ≡ EditFault.Memory) ⊎ (IsEditRefusal (C.cutting cut.now).refuses fault
        × ((file : List ℕ) (s : SurveyFields)
        → IsSplitSource (C.cutting cut.now) C.head source.now file s
        → piece_parts (C.cutting cut.now) file s places.now ≡ Err fault))) }
{
    let rest = &places[1..];
    let mut from = &places[0];
    let mut pieces = Vec::new(alloc);
    let mut number = 0;
    for to in rest {
        number += 1;
        let selected = cut.select(alloc, source, from, to)?;
        let piece = PlannedPiece::numbered(alloc, prefix, number, selected)?;
        pieces.push(piece)?;
        from = to;
    }
    Ok(pieces)
}
