//! A removal as a case of the one body.
ghost use Rattle.std.specs.Prelude.{◌≤◌, length};
ghost use Rattle.remove_edits.specs.Removed.{remove_task};
ghost use Rattle.remove_edits.specs.Ready.{AreExactStretches};

use crate::planned::prepare;
use crate::stretches::parts_left;
use crate::work::RemovalWork;
use commands::{Edit, EditFault, Inputs, MOST_FRAMES, survey_at};
use cut_edits::{read_head, set_apart};
use exact_span::ExactPlace;
use outside::Folder;
use std::alloc::Global;

/// An input from which stretches are taken out, 50 at most.
#[derive(Clone, Copy)]
pub(crate) struct RemoveEdit<'a> {
    pub input: &'a str,
    pub stretches: &'a [(ExactPlace, ExactPlace)],
}

impl<'a> Edit for RemoveEdit<'a> {
    type Work = RemovalWork;

    ghost task = { λ edit. remove_task edit.stretches.now edit.input.now };

    ghost IsLegal = { λ edit. (length edit.stretches.now ≤ 50)
        × AreExactStretches edit.stretches.now };

    fn inputs(&self) -> Inputs<'_> {
        Inputs::one(self.input)
    }

    fn prepare<D: Folder>(&self, alloc: Global, folder: &mut D) -> Result<RemovalWork, EditFault> {
        let mut survey = survey_at(alloc, folder, self.input, 0, MOST_FRAMES)?;
        let parts = parts_left(&survey, self.stretches)?;
        let head = read_head(folder, self.input, &survey)?;
        set_apart(&mut survey);
        let work = prepare(alloc, survey, head.as_ref(), parts)?;
        Ok(work)
    }
}
