//! The output of a command that makes one file: it is created, and written by a second pass over the source.
ghost use Rattle.std.specs.Prelude.{◌≡◌, ◌≢◌, List, [], ◌∷◌, ℕ, IfErr, OnOk};
ghost use Rattle.outside.specs.Files.{Files, with_empty_file};
ghost use Rattle.outside.specs.Counts.{NoneFell};
ghost use Rattle.outside.specs.Pass.{AppendsMadeBytes, AppendsPrefix, route, HasPassCause};
ghost use Rattle.commands.specs.AfterCall.{HasPassNumbers};
ghost use Rattle.commands.specs.SingleOutput.{WritesOutput};

use crate::fault::EditFault;
use outside::{Folder, PassFault};

/// What is known and ready before the output is created, with all memory that writing it takes.
pub trait OutputPass: Drop {
    /// The output, made from the bytes of the source.
    ghost file_of: { Self → List ℕ → List ℕ };

    /// The pass over the source with this name can begin in these files.
    ghost IsReady: { Self → List ℕ → Files → Type 0 };

    /// Appends the whole output to the file that was created for it. It takes no memory.
    ///
    /// # Errors
    /// `Read` if a read failed; `Shrunk` if a read gave no byte before the length that the
    /// source had when it was found; `Write` if a write failed. Then a prefix of the output was
    /// appended, and with `Write` not all of it.
    fn append<D: Folder>(
        &mut self,
        folder: &mut D,
        input: &str,
        output: &str,
    ) -> Result<(), PassFault>
        requires apart { input.now ≢ output.now }
        requires created { (old : Files) × IsReady self.old input.now old
            × ((D.seen folder.old).files ≡ with_empty_file old output.now) }
        ensures written { OnOk result (AppendsMadeBytes input.now output.now (file_of self.old)
            (D.seen folder.old).files (D.seen folder.new).files) }
        ensures prefix { IfErr result (AppendsPrefix input.now output.now (file_of self.old)
            (D.seen folder.old).files (D.seen folder.new).files) }
        ensures done { OnOk result ((D.seen folder.new).counts ≡ (D.seen folder.old).counts) }
        ensures cause { IfErr result (λ fault. (size : ℕ) × HasPassCause
            (route input.now output.now size) (D.seen folder.old).files
            (D.seen folder.old).counts (D.seen folder.new).counts fault) };
}

/// Creates the output and writes it. All memory was taken before.
///
/// # Errors
/// `Write(0)`, and `Input(0, ..)` with `Read` or `Shrunk`. Then the output is as it was or holds a prefix of its
/// bytes, and with `Write(0)` not all of them.
pub fn write_output<W: OutputPass, D: Folder>(
    folder: &mut D,
    input: &str,
    output: &str,
    work: &mut W,
) -> Result<(), EditFault>
    requires apart { input.now ≢ output.now }
    requires ready { W.IsReady work.old input.now (D.seen folder.old).files }
    ensures wrote { WritesOutput (W.file_of work.old) (input.now ∷ []) output.now
        (D.seen folder.old)
        (D.seen folder.new) result }
    ensures numbers { IfErr result HasPassNumbers }
    ensures counts { NoneFell (D.seen folder.old).counts (D.seen folder.new).counts }
{
    let Ok(()) = folder.create(output) else {
        return Err(EditFault::Write(0));
    };
    match work.append(folder, input, output) {
        Ok(()) => Ok(()),
        Err(fault) => Err(EditFault::of_pass(0, 0, fault)),
    }
}
