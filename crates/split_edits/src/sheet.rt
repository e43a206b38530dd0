//! The positions at which a cue sheet cuts a file.
ghost use Rattle.std.specs.Prelude.{◌≡◌, ◌⊎◌, ◌≤◌, length, Ok, Err, Some, IfOk, IfErr, OnOk, MatchResult};
ghost use Rattle.outside.specs.Files.{IsFileThere};
ghost use Rattle.outside.specs.Seen.{OnFile, OnlyRead};
ghost use Rattle.split_edits.specs.Split.{places_in, cue_sheet_places, ArePositions};
ghost use Rattle.split_edits.specs.Steps.{IsCueSheetFault, HasCueSheetNumbers};
ghost use Rattle.cue_sheet.specs.Limits.{longest_sheet};

use commands::{EditFault, Refusal, sheet_bytes};
use cue_sheet::{Cue, CueFault, Place};
use outside::Folder;
use std::alloc::Global;

/// The starts of the tracks in the bytes of a sheet, and the end of the file after them. `Sheet` with the fault of the bytes;
/// `Memory`.
fn places_in(alloc: Global, bytes: &[u8]) -> Result<Vec<Place>, EditFault>
    requires { length bytes.now ≤ longest_sheet }
    ensures places { MatchResult result
        (λ places. places_in bytes.now ≡ Ok places.items)
        (λ fault. (fault ≡ EditFault.Memory) ⊎ (HasCueSheetNumbers fault
        × (places_in bytes.now ≡ Err fault))) }
    ensures positions { IfOk result (λ places. ArePositions places.items) }
{
    let cue = match Cue::read(alloc, bytes) {
        Ok(cue) => cue,
        Err(CueFault::Memory) => return Err(EditFault::Memory),
        Err(fault) => return Err(Refusal::Sheet(fault).into()),
    };
    let mut places = cue.starts().to_vec(alloc)?;
    places.push(Place::End)?;
    Ok(places)
}

/// The positions at which a sheet, the second input of a command, cuts a file. The files stay.
///
/// # Errors
/// `Input(1, ..)` with `Absent` and `Read`, and, only if the folder's contents aren't known, with
/// `Shrunk`, the length in bytes that the sheet was found with and the length that it had when it
/// was read; `SheetTooLarge` with its length above 65,536 bytes; `Sheet` with the fault of its
/// bytes; `Memory`.
pub(crate) fn sheet_places<D: Folder>(
    alloc: Global,
    folder: &mut D,
    sheet: &str,
) -> Result<Vec<Place>, EditFault>
    ensures there { OnOk result (IsFileThere (D.seen folder.old).files sheet.now) }
    ensures places { IfOk result (λ places. OnFile (D.seen folder.old) sheet.now
        (λ bytes. cue_sheet_places (Some bytes) ≡ Ok places.items)) }
    ensures positions { IfOk result (λ places. ArePositions places.items) }
    ensures refused { IfErr result (IsCueSheetFault sheet.now
        (D.seen folder.old)
        (D.seen folder.new)) }
    ensures numbers { IfErr result HasCueSheetNumbers }
    ensures reads { OnlyRead result (D.seen folder.old) (D.seen folder.new) }
{
    let bytes = sheet_bytes(alloc, folder, sheet)?;
    places_in(alloc, bytes.as_slice())
}
