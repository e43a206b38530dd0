//! The main data of one frame of an input, read before there is an output.
ghost use Rattle.std.specs.Prelude.{◌<◌, length, OnOk};
ghost use Rattle.sync_survey.specs.Faults.{survey_view};
ghost use Rattle.laying.specs.Areas.{IsHeld, ReadsInput};
ghost use Rattle.seamless_edits.specs.Reading.{IsMainDataOf, source_route};

use arrayvec::ArrayVec;
use frame_header::Header;
use laying::{AreaSource, read_before};
use outside::{Folder, PassFault, read_exact};
use reservoir::Window;
use sync_survey::{Row, Survey};

/// An input that is read before there is an output: its name and its survey.
#[derive(Clone, Copy)]
pub(crate) struct Source<'a> {
    pub name: &'a str,
    pub survey: &'a Survey,
}

impl<'a> AreaSource for Source<'a> {
    type Buffer = ();

    ghost way = { source_route };

    ghost fields = { λ source. survey_view source.survey.now };

    ghost CanRead = { λ source files none. IsHeld files source.name.now
        (survey_view source.survey.now) };

    fn survey(&self) -> &Survey {
        self.survey
    }

    fn push_area<D: Folder>(
        &self,
        folder: &mut D,
        offset: u64,
        header: &Header,
        _: &mut (),
        window: &mut Window,
    ) -> Result<(), PassFault> {
        let at = offset + u64::from(header.overhead());
        let mut room = [0; 1441];
        let area = &mut room[..header.area() as usize];
        read_exact(folder, self.name, self.survey.length(), at, area)?;
        window.push_area(area);
        Ok(())
    }

    ghost held = { λ source files none is. is };
}

impl<'a> Source<'a> {
    /// Puts the main data of frame `i` into a list, replacing its content. No frame is lost.
    ///
    /// # Errors
    /// Those of `push_area`.
    pub fn main_data<D: Folder>(
        &self,
        folder: &mut D,
        i: usize,
        window: &mut Window,
        into: &mut ArrayVec<u8, 2048>,
    ) -> Result<(), PassFault>
        requires held { IsHeld (D.seen folder.old).files self.now.name.now
            (survey_view self.now.survey.now) }
        requires within { i < length (survey_view self.now.survey.now).frames }
        ensures payload { OnOk result (IsMainDataOf self.now.name.now (D.seen folder.old).files
            (survey_view self.now.survey.now) i into.new.items) }
        ensures reads { ReadsInput (source_route self.now) (D.seen folder.old)
            (D.seen folder.new) result }
    {
        let row = &self.survey.frames()[i];
        if row.lost() {
            into.clear();
            return Ok(());
        }
        read_before(self, folder, i + 1, &mut (), window)?;
        let extent = row.extent();
        let area = row.header().area();
        window.payload(area, u32::from(extent.begin), extent.bits, into);
        Ok(())
    }
}
