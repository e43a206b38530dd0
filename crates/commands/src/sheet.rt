//! The bytes of a sheet.
ghost use Rattle.std.specs.Prelude.{◌≡◌, ◌≤◌, length, IfOk};
ghost use Rattle.outside.specs.Seen.{OnFile};
ghost use Rattle.cue_sheet.specs.Limits.{longest_sheet};
ghost use Rattle.commands.specs.Answers.{SheetAnswer};

use crate::fault::{EditFault, Refusal};
use outside::{FindFault, Folder, read_exact};
use std::alloc::Global;
use sync_survey::SurveyFault;

/// The greatest length of a sheet in bytes.
const LONGEST_SHEET: u64 = 65_536;

/// The number of the sheet among the inputs, counted from 0.
pub const SHEET: u32 = 1;

/// The length of the sheet in bytes.
///
/// # Errors
/// `Input(1, ..)` with `Absent` or `Read`; `SheetTooLarge`.
fn sheet_length<D: Folder>(folder: &mut D, sheet: &str) -> Result<u64, EditFault>
    ensures length { IfOk result (λ n. OnFile (D.seen folder.old) sheet.now
        (λ bytes. n ≡ length bytes)) }
    ensures most { IfOk result (λ n. n ≤ longest_sheet) }
    ensures sheet { SheetAnswer sheet.now (D.seen folder.old) (D.seen folder.new) result }
{
    match folder.find(sheet) {
        Ok(length) if length > LONGEST_SHEET => Err(Refusal::SheetTooLarge(length).into()),
        Ok(length) => Ok(length),
        Err(FindFault::Absent) => Err(EditFault::Input(SHEET, SurveyFault::Absent)),
        Err(FindFault::Failed) => Err(EditFault::Input(SHEET, SurveyFault::Read)),
    }
}

/// The bytes of a sheet, the second input of a command. The files stay as they are.
///
/// # Errors
/// - `Input(1, ..)` with `Absent` if it isn't there, with `Read` if a call failed, and with
///   `Shrunk`, the length of the sheet when it was found and the length at which it ended when it
///   was read, only in a folder whose contents aren't known;
/// - `SheetTooLarge` with its length if it has more than 65,536 bytes;
/// - `Memory` if memory runs out.
pub fn sheet_bytes<D: Folder>(
    alloc: Global,
    folder: &mut D,
    sheet: &str,
) -> Result<Vec<u8>, EditFault>
    ensures most { IfOk result (λ read. length read.items ≤ longest_sheet) }
    ensures bytes { IfOk result (λ read. OnFile (D.seen folder.old) sheet.now
        (λ bytes. read.items ≡ bytes)) }
    ensures sheet { SheetAnswer sheet.now (D.seen folder.old) (D.seen folder.new) result }
{
    let length = sheet_length(folder, sheet)?;
    let mut bytes = vec![in alloc; 0; length as usize]?;
    match read_exact(folder, sheet, length, 0, bytes.as_mut_slice()) {
        Ok(()) => Ok(bytes),
        Err(fault) => Err(EditFault::Input(SHEET, fault.into())),
    }
}
