//! What a command that moves gains prepares, and the pass that writes its file.
ghost use Rattle.gain_edits.specs.Movable.{moved_file, IsMovable};

use commands::OutputPass;
use moved_gains::{Change, GainBuffers, write_changed};
use outside::{Folder, PassFault};
use sync_survey::Survey;

/// The survey of the input, what changes in it, and the memory of the pass.
#[derive(Drop)]
pub struct GainWork {
    pub survey: Survey,
    pub change: Change,
    pub buffers: GainBuffers,
}

impl OutputPass for GainWork {
    ghost file_of = { λ work. moved_file work };

    ghost IsReady = { λ work input files. IsMovable input work files };

    #[tactic(auto, using(outside::proofs::FilesLemmas::emptied_there, outside::proofs::FilesLemmas::emptied_keeps, outside::proofs::FilesLemmas::emptied_held_other))]
    fn append<D: Folder>(
        &mut self,
        folder: &mut D,
        input: &str,
        output: &str,
    ) -> Result<(), PassFault> {
        let GainWork {
            survey,
            change,
            buffers,
        } = self;
        write_changed(folder, input, output, survey, change, buffers)
    }
}
