//! What a command that repacks chosen frames prepares, and the pass that writes its file.
ghost use Rattle.std.specs.Prelude.{IfOk};
ghost use Rattle.cut_edits.specs.Layable.{work_file, IsLayable, IsWorkOf};

use commands::OutputPass;
use laying::{Relay, RelayBuffers, Selected};
use outside::{Folder, Pass, PassFault};
use std::alloc::{AllocError, Global};
use sync_survey::Survey;

/// The survey of the input, the chosen frames with their plan, and the memory of the pass.
#[derive(Drop)]
pub struct LaidWork {
    pub survey: Survey,
    pub selected: Selected,
    pub buffers: RelayBuffers,
}

impl LaidWork {
    /// The survey and the plan, with all memory of the pass.
    ///
    /// # Errors
    /// If memory runs out.
    pub fn new(alloc: Global, survey: Survey, selected: Selected) -> Result<LaidWork, AllocError>
        ensures { IfOk result (IsWorkOf survey selected) }
    {
        let buffers = RelayBuffers::new(alloc, survey.class())?;
        Ok(LaidWork {
            survey,
            selected,
            buffers,
        })
    }
}

impl OutputPass for LaidWork {
    ghost file_of = { λ work. work_file work };

    ghost IsReady = { λ work input files. IsLayable input work files };

    fn append<D: Folder>(
        &mut self,
        folder: &mut D,
        input: &str,
        output: &str,
    ) -> Result<(), PassFault> {
        let LaidWork {
            survey,
            selected,
            buffers,
        } = self;
        let pass = Pass {
            input,
            output,
            length: survey.length(),
        };
        Relay { pass, survey }.write(folder, selected, buffers)
    }
}
