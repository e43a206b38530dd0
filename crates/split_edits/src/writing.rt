//! The second pass: pieces are written in order.
ghost use Rattle.std.specs.Prelude.{◌≡◌, [], length};
ghost use Rattle.outside.specs.Feed.{IsFedFrom};
ghost use Rattle.sync_survey.specs.Faults.{survey_view};
ghost use Rattle.split_edits.specs.Steps.{IsSplit, pieces_of, WritesPieces};

use crate::piece::PlannedPiece;
use commands::EditFault;
use laying::{Relay, RelayBuffers};
use outside::{Folder, Pass};
use sync_survey::Survey;

/// Creates the outputs of the pieces and writes them, in order. It takes no memory.
///
/// # Errors
/// `Input(0, ..)` with `Read`, and with `Shrunk` only if the folder's contents aren't known;
/// `Write` with the number of the piece, counted from 0. Then the pieces before are whole, and this
/// one holds a prefix of its bytes, with `Write` not all of them, or wasn't created.
pub(crate) fn write_pieces<D: Folder>(
    folder: &mut D,
    input: &str,
    survey: &Survey,
    pieces: &[PlannedPiece],
    buffers: &mut RelayBuffers,
) -> Result<(), EditFault>
    requires split { IsSplit input.now (survey_view survey.now) pieces.now (D.seen folder.old) }
    requires fed { IsFedFrom buffers.old.feed (D.seen folder.old).files input.now }
    requires unsent { buffers.old.waiting ≡ [] }
    ensures { WritesPieces (pieces_of input.now (survey_view survey.now) pieces.now)
        (length pieces.now) (D.seen folder.old) (D.seen folder.new) result }
{
    let mut place = 0;
    for piece in pieces {
        let pass = Pass {
            input,
            output: piece.name.as_str(),
            length: survey.length(),
        };
        let relay = Relay { pass, survey };
        let Ok(()) = folder.create(pass.output) else {
            return Err(EditFault::Write(place));
        };
        if let Err(fault) = relay.write(folder, &piece.selected, buffers) {
            return Err(EditFault::of_pass(0, place, fault));
        }
        place += 1;
    }
    Ok(())
}
