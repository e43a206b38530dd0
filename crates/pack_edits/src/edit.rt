//! Packing as a case of the one body.
ghost use Rattle.pack_edits.specs.Modes.{pack_task};

use crate::inputs::survey_packed;
use crate::plans::plan_packed;
use commands::{Edit, EditFault, Inputs};
use cut_edits::{LaidWork, all_choice};
use outside::Folder;
use requests::PackMode;
use std::alloc::Global;

/// An input that is packed.
#[derive(Clone, Copy)]
pub struct PackEdit<'a> {
    pub input: &'a str,
    pub mode: PackMode,
}

impl<'a> Edit for PackEdit<'a> {
    type Work = LaidWork;

    ghost task = { λ edit. pack_task edit.mode edit.input.now };

    ghost IsLegal = { λ edit. Unit {0} };

    fn inputs(&self) -> Inputs<'_> {
        Inputs::one(self.input)
    }

    fn prepare<D: Folder>(&self, alloc: Global, folder: &mut D) -> Result<LaidWork, EditFault> {
        let survey = survey_packed(alloc, folder, self.input, self.mode)?;
        let chosen = all_choice(folder, self.input, &survey)?;
        let selected = plan_packed(alloc, &survey, &chosen, self.mode)?;
        let work = LaidWork::new(alloc, survey, selected)?;
        Ok(work)
    }
}
