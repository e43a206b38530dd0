//! The common body of all commands that make one file.
ghost use Rattle.std.specs.Prelude.{◌≡◌, IfOk, IfErr, OnOk};
ghost use Rattle.outside.specs.Counts.{OnlyReads};
ghost use Rattle.commands.specs.Kept.{asked_of};
ghost use Rattle.commands.specs.Runs.{IsRunOf};
ghost use Rattle.commands.specs.Inputs.{names_of};
ghost use Rattle.commands.specs.SingleOutput.{Task, one_command, IsEarlyFault, HasTaskNumbers, IsMaking, IsProperTask};

use crate::asking::ask_all;
use crate::fault::EditFault;
use crate::inputs::Inputs;
use crate::output::{OutputPass, write_output};
use outside::Folder;
use std::alloc::Global;

/// A command that makes one file, without the output's name: what it reads and decides before the output is
/// created.
pub trait Edit {
    /// What is known and ready before the output is created, and how the output is written from it.
    type Work: OutputPass;

    /// What it reads, and what it makes of the files that are there.
    ghost task: { Self → Task };

    /// What its arguments have to satisfy.
    ghost IsLegal: { Self → Type 0 };

    /// The names of what it reads.
    fn inputs(&self) -> Inputs<'_>
        ensures { names_of result ≡ (task self.now).inputs };

    /// Reads what is needed, decides, and takes all memory.
    ///
    /// # Errors
    /// `Input` with the number of an input, counted from 0, and its fault; `Refused`; and `Memory`.
    /// The files stay as they are.
    fn prepare<D: Folder>(&self, alloc: Global, folder: &mut D) -> Result<Self::Work, EditFault>
        requires { IsLegal self.now }
        ensures ready { IfOk result (λ work. Self.Work.IsReady work (task self.now).source
            (D.seen folder.old).files) }
        ensures making { IfOk result (λ work. IsMaking (task self.now) (Self.Work.file_of work)
            (D.seen folder.old).files) }
        ensures refused { IfErr result (IsEarlyFault (task self.now)
            (D.seen folder.old)
            (D.seen folder.new)) }
        ensures numbers { IfErr result (HasTaskNumbers (task self.now)) }
        ensures done { OnOk result ((D.seen folder.new).counts ≡ (D.seen folder.old).counts) }
        ensures files { (D.seen folder.new).files ≡ (D.seen folder.old).files }
        ensures counts { OnlyReads (D.seen folder.old).counts (D.seen folder.new).counts };
}

/// Makes the one file of a command.
///
/// # Errors
/// In this order:
/// - `EqualNames` with the number, counted from 0, of the first input that has the output's name, byte for
///   byte;
/// - the errors of `prepare`. Nothing was created then;
/// - in a folder that keeps what is there, `Refused(Exists(0))` if the output is there, or `Write(0)` if the call that asks
///   for it failed. Nothing was created then;
/// - `Input(0, ..)` with `Read` or `Shrunk`, and `Write(0)`, while the output is created and written. It is
///   then as it was or holds a prefix of its bytes, and with `Write(0)` not all of them.
///
/// `Memory` comes only before the output is created.
pub fn make_one<E: Edit, D: Folder>(
    alloc: Global,
    folder: &mut D,
    edit: &E,
    output: &str,
) -> Result<(), EditFault>
    requires legal { E.IsLegal edit.now }
    requires proper { IsProperTask (E.task edit.now) }
    // The sources are well-formed, and the output holds its stream.
    ensures { IsRunOf (asked_of D.keeping (one_command (E.task edit.now) output.now))
        (D.seen folder.old)
        (D.seen folder.new) result }
{
    let inputs = edit.inputs();
    if let Some(number) = inputs.clash(output) {
        return Err(EditFault::EqualNames(number));
    }
    let mut work = edit.prepare(alloc, folder)?;
    ask_all(folder, &[output])?;
    write_output(folder, inputs.source, output, &mut work)
}
