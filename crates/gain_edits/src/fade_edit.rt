//! The command of this crate as a case of the one body.
ghost use Rattle.gain_edits.specs.Fade.{fade_task};

use crate::GainWork;
use crate::fade_change::fade_change;
use commands::{Edit, EditFault, Inputs, MOST_FRAMES, survey_at};
use moved_gains::GainBuffers;
use outside::Folder;
use std::alloc::Global;

/// An input that fades, the sheet with the curve, and whether a fade with this sheet is undone.
#[derive(Clone, Copy)]
pub struct FadeEdit<'a> {
    pub input: &'a str,
    pub sheet: &'a str,
    pub back: bool,
}

impl<'a> Edit for FadeEdit<'a> {
    type Work = GainWork;

    ghost task = { λ edit. fade_task edit.sheet.now edit.back edit.input.now };

    ghost IsLegal = { λ edit. Unit {0} };

    fn inputs(&self) -> Inputs<'_> {
        Inputs {
            source: self.input,
            sheet: Some(self.sheet),
        }
    }

    fn prepare<D: Folder>(&self, alloc: Global, folder: &mut D) -> Result<GainWork, EditFault> {
        let survey = survey_at(alloc, folder, self.input, 0, MOST_FRAMES)?;
        let change = fade_change(alloc, folder, self.sheet, self.back, &survey)?;
        let buffers = GainBuffers::new(alloc)?;
        Ok(GainWork {
            survey,
            change,
            buffers,
        })
    }
}
