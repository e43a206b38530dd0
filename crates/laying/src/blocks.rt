//! The blocks of a surveyed input, copied through the buffer of an output.
ghost use Rattle.std.specs.Prelude.{◌≡◌, ◌+◌, ◌≤◌, [], ◌∷◌, IfErr, OnOk};
ghost use Rattle.outside.specs.Pass.{WritesMadeBytes, WritesPrefix, route_of, HasPassCause};
ghost use Rattle.sync_survey.specs.Faults.{survey_view};
ghost use Rattle.laying.specs.Written.{goes_in_front};
ghost use Rattle.laying.specs.Copying.{chosen_bytes};
ghost use Rattle.laying.specs.Calls.{AddMadeAnswer};
ghost use Rattle.laying.specs.Passing.{IsRelayReady};

use crate::relay::Relay;
use outside::{Feed, Folder, PassFault, WriteBuffer};
use sync_survey::Piece;
use tag_blocks::Kind;

impl<'a> Relay<'a> {
    /// Whether a block goes before the frames: it is an ID3v2 block before the first frame or the head.
    fn goes_in_front(&self, block: &Piece) -> bool
        ensures { result ≡ goes_in_front (survey_view self.now.survey.now) block.now }
    {
        block.block.kind == Kind::Id3v2 && block.offset < self.survey.first()
    }

    /// Copies a block if it goes before the frames or, with `in_front` false, if it doesn't.
    ///
    /// # Errors
    /// `Read` or `Shrunk` if the input can't be read, `Write` if a write failed.
    fn copy_chosen<D: Folder>(
        &self,
        folder: &mut D,
        in_front: bool,
        block: &Piece,
        feed: &mut Feed,
        waiting: &mut WriteBuffer,
    ) -> Result<(), PassFault>
        requires ready { IsRelayReady self.now (D.seen folder.old).files feed.old }
        requires within { block.now.offset + block.now.block.length
            ≤ (survey_view self.now.survey.now).length }
        ensures { AddMadeAnswer self.now (chosen_bytes in_front (survey_view self.now.survey.now)
            (block.now ∷ [])) waiting.old waiting.new feed.new (D.seen folder.old)
            (D.seen folder.new) result }
    {
        if self.goes_in_front(block) == in_front {
            let end = block.offset + block.block.length;
            self.pass.copy(folder, block.offset, end, feed, waiting)
        } else {
            Ok(())
        }
    }

    /// Copies the blocks that go before the frames or, with `in_front` false, all others, in the
    /// order of the input.
    ///
    /// # Errors
    /// `Read` or `Shrunk` if the input can't be read, `Write` if a write failed.
    pub fn copy_blocks<D: Folder>(
        &self,
        folder: &mut D,
        in_front: bool,
        feed: &mut Feed,
        waiting: &mut WriteBuffer,
    ) -> Result<(), PassFault>
        requires ready { IsRelayReady self.now (D.seen folder.old).files feed.old }
        ensures { AddMadeAnswer self.now (chosen_bytes in_front (survey_view self.now.survey.now)
            (survey_view self.now.survey.now).blocks)
            waiting.old waiting.new feed.new (D.seen folder.old) (D.seen folder.new) result }
    {
        for block in self.survey.blocks() {
            self.copy_chosen(folder, in_front, block, feed, waiting)?;
        }
        Ok(())
    }
}
