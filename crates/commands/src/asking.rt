//! The question whether outputs are there, before the first is created.
ghost use Rattle.std.specs.Prelude.{◌≡◌, ◌≤◌, ◌<◌, [], ◌∷◌, length, map, true};
ghost use Rattle.commands.specs.Kept.{AsksAll};

use crate::fault::{EditFault, Refusal};
use outside::{Failed, Folder};
use std::convert::AsStr;

/// Asks a folder that keeps what is there whether these outputs are there, in their order. Any
/// other folder isn't asked. It comes once all else is ready, just before the first is created.
///
/// # Errors
/// `Refused(Exists)` with the number of the first output, counted from 0, whose name is there;
/// `Write` with the number of one for which the call failed. The files stay.
pub fn ask_all<D: Folder, N: AsStr>(folder: &mut D, outputs: &[N]) -> Result<(), EditFault>
    requires { length outputs.now ≤ 99 }
    ensures { AsksAll D.keeping (map N.text outputs.now) (D.seen folder.old) (D.seen folder.new)
        result }
{
    if !folder.keeps() {
        return Ok(());
    }
    for number in 0..outputs.len() {
        match folder.there(outputs[number].as_str()) {
            Ok(false) => {}
            Ok(true) => return Err(Refusal::Exists(number as u32).into()),
            Err(Failed) => return Err(EditFault::Write(number as u32)),
        }
    }
    Ok(())
}
