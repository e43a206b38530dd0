//! A whole file of frames of one input.
ghost use Rattle.std.specs.Prelude.{◌≡◌, ◌++◌, [], IfErr, OnOk, OnErr};
ghost use Rattle.outside.specs.Files.{IsFileThere};
ghost use Rattle.outside.specs.BufferOutput.{AppendsWaiting, AppendedPrefix};
ghost use Rattle.std.specs.List.{concat};
ghost use Rattle.outside.specs.Pass.{WritesMadeBytes, WritesPrefix, AppendsMadeBytes, AppendsPrefix, route_of, HasPassCause};
ghost use Rattle.sync_survey.specs.Faults.{survey_view};
ghost use Rattle.laying.specs.Written.{front_blocks};
ghost use Rattle.laying.specs.Calls.{ForwardAnswer, AddMadeAnswer, AppendMadeAnswer};
ghost use Rattle.laying.specs.Passing.{IsRelayReady};
ghost use Rattle.laying.specs.Laid.{selected_part, file_laid, selected_front, IsWritableSelection};

use crate::buffers::RelayBuffers;
use crate::relay::Relay;
use crate::selected::Selected;
use outside::{Feed, Folder, PassFault, WriteBuffer};

impl<'a> Relay<'a> {
    /// Appends to the output what waits for it, and then these bytes.
    ///
    /// # Errors
    /// `Write` if a write failed.
    fn send<D: Folder>(
        &self,
        folder: &mut D,
        bytes: &[u8],
        waiting: &mut WriteBuffer,
    ) -> Result<(), PassFault>
        requires { IsFileThere (D.seen folder.old).files self.now.pass.output.now }
        ensures hands { ForwardAnswer self.now (waiting.old ++ bytes.now)
            waiting.new (D.seen folder.old) (D.seen folder.new) result }
        ensures none { OnOk result (waiting.new ≡ []) }
    {
        self.pass.push(folder, bytes, waiting)?;
        self.pass.finish(folder, waiting)
    }

    /// Appends to the output what waits for it, the blocks that go before the frames, and an Info
    /// frame with these bytes, so that what players read first is in the file before the frames. It
    /// takes no memory.
    ///
    /// # Errors
    /// As `write`.
    pub fn write_front<D: Folder>(
        &self,
        folder: &mut D,
        info: &[u8],
        feed: &mut Feed,
        waiting: &mut WriteBuffer,
    ) -> Result<(), PassFault>
        requires ready { IsRelayReady self.now (D.seen folder.old).files feed.old }
        ensures adds { AddMadeAnswer self.now (λ file. concat
            (front_blocks file (survey_view self.now.survey.now))
            ++ info.now) waiting.old waiting.new
            feed.new (D.seen folder.old) (D.seen folder.new) result }
        ensures none { OnOk result (waiting.new ≡ []) }
    {
        self.copy_blocks(folder, true, feed, waiting)?;
        self.send(folder, info, waiting)
    }

    /// Adds the file of these frames, except for the blocks after them, to what waits for the
    /// output.
    ///
    /// # Errors
    /// As `lay`.
    fn write_frames<D: Folder>(
        &self,
        folder: &mut D,
        selected: &Selected,
        buffers: &mut RelayBuffers,
    ) -> Result<(), PassFault>
        requires ready { IsRelayReady self.now (D.seen folder.old).files buffers.old.feed }
        requires writable { IsWritableSelection (survey_view self.now.survey.now) selected.now }
        ensures { AddMadeAnswer self.now
            (selected_front (survey_view self.now.survey.now) selected.now)
            buffers.old.waiting buffers.new.waiting buffers.new.feed (D.seen folder.old)
            (D.seen folder.new) result }
    {
        self.write_front(
            folder,
            selected.info.as_slice(),
            &mut buffers.feed,
            &mut buffers.waiting,
        )?;
        buffers.writer.restart(self.survey.class());
        self.lay(folder, selected, buffers)
    }

    /// Appends to the output the file of these frames of the input: the input's ID3v2 blocks before
    /// its first frame, the Info frame, the frames in the slots and with the lead-ins of their
    /// plan, with all main data repacked, and all other blocks of the input. Nothing waits for the
    /// output at first; otherwise the buffers may hold whatever earlier writes left. It takes no
    /// memory.
    ///
    /// # Errors
    /// `Read` if a read failed; `Shrunk`, with the length of the input when it was found and the
    /// length at which it ended when it was read, if a read gave no byte before the former;
    /// `Write` if a write failed. Then a prefix of the bytes was appended, and with `Write` not
    /// all of them.
    pub fn write<D: Folder>(
        &self,
        folder: &mut D,
        selected: &Selected,
        buffers: &mut RelayBuffers,
    ) -> Result<(), PassFault>
        requires ready { IsRelayReady self.now (D.seen folder.old).files buffers.old.feed }
        requires writable { IsWritableSelection (survey_view self.now.survey.now) selected.now }
        requires none { buffers.old.waiting ≡ [] }
        ensures { AppendMadeAnswer self.now
            (λ file. file_laid (selected_part selected.now) file (survey_view self.now.survey.now))
            buffers.new (D.seen folder.old) (D.seen folder.new) result }
    {
        self.write_frames(folder, selected, buffers)?;
        self.copy_blocks(folder, false, &mut buffers.feed, &mut buffers.waiting)?;
        self.pass.finish(folder, &mut buffers.waiting)
    }
}
