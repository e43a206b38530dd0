//! An exact piece as a case of the one body.
ghost use Rattle.exact_span.specs.Places.{IsExactPlace};
ghost use Rattle.cut_edits.specs.Exact.{exact_task};

use crate::apart::set_apart;
use crate::heads::read_head;
use crate::pieces::select_piece;
use crate::spans::find_span;
use crate::work::LaidWork;
use commands::{Edit, EditFault, Inputs, MOST_FRAMES, survey_at};
use exact_span::ExactPlace;
use outside::Folder;
use std::alloc::Global;

/// An input from which the samples from one place to another are chosen.
#[derive(Clone, Copy)]
pub struct ExactEdit<'a> {
    pub input: &'a str,
    pub from: &'a ExactPlace,
    pub to: &'a ExactPlace,
}

impl<'a> Edit for ExactEdit<'a> {
    type Work = LaidWork;

    ghost task = { λ edit. exact_task edit.from.now edit.to.now edit.input.now };

    ghost IsLegal = { λ edit. IsExactPlace edit.from.now × IsExactPlace edit.to.now };

    fn inputs(&self) -> Inputs<'_> {
        Inputs::one(self.input)
    }

    fn prepare<D: Folder>(&self, alloc: Global, folder: &mut D) -> Result<LaidWork, EditFault> {
        let mut survey = survey_at(alloc, folder, self.input, 0, MOST_FRAMES)?;
        let head = read_head(folder, self.input, &survey)?;
        let span = find_span(&survey, head.as_ref(), self.from, self.to)?;
        set_apart(&mut survey);
        let selected = select_piece(alloc, &survey, head.as_ref(), &span)?;
        let work = LaidWork::new(alloc, survey, selected)?;
        Ok(work)
    }
}
