//! The commands of this crate as cases of the one body.
ghost use Rattle.cut_edits.specs.Choices.{task_of_choice, IsSoundChoice};

use crate::choice::FrameChoice;
use crate::plans::plan_file;
use crate::work::LaidWork;
use commands::{Edit, EditFault, Inputs, MOST_FRAMES, survey_at};
use outside::Folder;
use std::alloc::Global;

/// An input from which frames are chosen.
#[derive(Clone, Copy)]
pub struct FrameEdit<'a> {
    pub input: &'a str,
    pub choice: FrameChoice<'a>,
    /// Whether each frame gets the least slot instead of keeping its own.
    pub least: bool,
}

impl<'a> Edit for FrameEdit<'a> {
    type Work = LaidWork;

    ghost task = { λ edit. task_of_choice edit.choice edit.least edit.input.now };

    ghost IsLegal = { λ edit. IsSoundChoice edit.choice };

    fn inputs(&self) -> Inputs<'_> {
        Inputs::one(self.input)
    }

    fn prepare<D: Folder>(&self, alloc: Global, folder: &mut D) -> Result<LaidWork, EditFault> {
        let survey = survey_at(alloc, folder, self.input, 0, MOST_FRAMES)?;
        let chosen = self.choice.find(folder, self.input, &survey)?;
        let selected = plan_file(alloc, &survey, &chosen, self.least)?;
        let work = LaidWork::new(alloc, survey, selected)?;
        Ok(work)
    }
}
