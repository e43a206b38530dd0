//! The commands of this crate as cases of the one body.
ghost use Rattle.gain_edits.specs.Changes.{task_of_changes};

use crate::changes::Changes;
use crate::work::GainWork;
use commands::{Edit, EditFault, Inputs, MOST_FRAMES, survey_at};
use moved_gains::GainBuffers;
use outside::Folder;
use std::alloc::Global;

/// An input whose gains change.
#[derive(Clone, Copy)]
pub struct GainEdit<'a> {
    pub input: &'a str,
    pub changes: Changes<'a>,
}

impl<'a> Edit for GainEdit<'a> {
    type Work = GainWork;

    ghost task = { λ edit. task_of_changes edit.changes edit.input.now };

    ghost IsLegal = { λ edit. Unit {0} };

    fn inputs(&self) -> Inputs<'_> {
        Inputs::one(self.input)
    }

    fn prepare<D: Folder>(&self, alloc: Global, folder: &mut D) -> Result<GainWork, EditFault> {
        let survey = survey_at(alloc, folder, self.input, 0, MOST_FRAMES)?;
        let change = self.changes.find(alloc, folder, self.input, &survey)?;
        let buffers = GainBuffers::new(alloc)?;
        Ok(GainWork {
            survey,
            change,
            buffers,
        })
    }
}
