//! A stream on its way to a file.
ghost use Rattle.std.specs.Prelude.{◌≡◌, ◌≤◌, [], length, IfOk, OnOk, OnErr};
ghost use Rattle.frame_header.specs.Tables.{class_of};
ghost use Rattle.outside.specs.Files.{with_appended_bytes, IsFileThere};
ghost use Rattle.outside.specs.BufferOutput.{AppendedPrefix};
ghost use Rattle.outside.specs.Counts.{OnlyWrites};
ghost use Rattle.frame_writer.specs.Frames.{reach_of, reach_after_frame};
ghost use Rattle.frame_writer.specs.Writing.{IsNewQueue, AcceptsFrame, WritesPart, WriteFailed};
ghost use Rattle.drill.specs.Draws.{state_after};
ghost use Rattle.drill.specs.Drill.{drill_header, draws_of, drill_frames, drill_stream};
ghost use Rattle.drill.specs.Making.{drill_writing, IsNextDrawn, next_frame, HasMade};

use crate::draws::Draws;
use crate::frames::{draw_payload, draw_side, drill_header};
use frame_writer::{Frame, FrameQueue};
use outside::{Failed, Folder, WriteBuffer};
use reservoir::Window;
use side_info::FrameFront;
use std::alloc::{AllocError, Global};

/// A stream on its way to a file: the draws, the main data of one frame, the frames that wait, and the
/// bytes that wait for the file.
#[derive(Drop)]
pub(crate) struct DrillWriter {
    pub(crate) draws: Draws,
    window: Window,
    pub(crate) writer: FrameQueue,
    pub(crate) unsent: WriteBuffer,
}

impl DrillWriter {
    /// A writer for which no frame of this seed's stream was drawn yet. It takes all its memory
    /// here.
    ///
    /// # Errors
    /// If memory runs out.
    pub(crate) fn new(alloc: Global, seed: u32) -> Result<DrillWriter, AllocError>
        ensures state { IfOk result (λ making. making.draws.state ≡ seed) }
        ensures new { IfOk result (λ making. IsNewQueue (class_of drill_header) making.writer) }
        ensures none { IfOk result (λ making. making.unsent ≡ []) }
    {
        Ok(DrillWriter {
            draws: Draws { state: seed },
            unsent: WriteBuffer::new(alloc)?,
            window: Window::new(alloc)?,
            writer: FrameQueue::new(alloc, drill_header().class())?,
        })
    }

    /// Draws a frame and gives it to the writer. Its main data begin as early as they may.
    ///
    /// # Errors
    /// If a write failed.
    fn frame<D: Folder>(&mut self, folder: &mut D, name: &str) -> Result<(), Failed>
        requires there { IsFileThere (D.seen folder.old).files name.now }
        requires next { IsNextDrawn self.old }
        ensures written { OnOk result
            (AcceptsFrame name.now (next_frame self.old) (drill_writing self.old)
            (drill_writing self.new) (D.seen folder.old).files (D.seen folder.new).files) }
        ensures part { OnErr result
            (WritesPart name.now (next_frame self.old) (drill_writing self.old)
            self.new.writer (D.seen folder.old).files (D.seen folder.new).files) }
        ensures next { OnOk result (IsNextDrawn self.new) }
        ensures state { self.new.draws.state ≡
            state_after (draws_of (reach_of self.old.writer) self.old.draws.state)
            self.old.draws.state }
        ensures reach { reach_of self.new.writer ≡
            reach_after_frame (class_of drill_header) (next_frame self.old) }
        ensures failed { OnErr result (WriteFailed name.now (D.seen folder.old).counts
            (D.seen folder.new).counts) }
        ensures done { OnOk result ((D.seen folder.new).counts ≡ (D.seen folder.old).counts) }
        ensures counts { OnlyWrites (D.seen folder.old).counts (D.seen folder.new).counts }
    {
        let side = draw_side(&mut self.draws, self.writer.reach() as u16);
        let front = FrameFront::new(&drill_header(), &side);
        let payload = draw_payload(&mut self.draws, side.bits(), &mut self.window);
        let frame = Frame::new(&front, payload);
        self.writer.frame(&frame, folder, name, &mut self.unsent)
    }

    /// Draws `count` frames and gives them to the writer.
    ///
    /// # Errors
    /// If a write failed. Then a prefix of the stream of these frames was appended.
    fn frames<D: Folder>(&mut self, count: u32, folder: &mut D, name: &str) -> Result<(), Failed>
        requires there { IsFileThere (D.seen folder.old).files name.now }
        requires new { IsNewQueue (class_of drill_header) self.old.writer }
        requires none { self.old.unsent ≡ [] }
        ensures made { OnOk result (HasMade name.now (drill_writing self.new)
            (drill_frames self.old.draws.state count) (D.seen folder.old).files
            (D.seen folder.new).files) }
        ensures prefix { OnErr result (AppendedPrefix name.now
            (drill_stream self.old.draws.state count) (D.seen folder.old).files
            (D.seen folder.new).files) }
        ensures failed { OnErr result (WriteFailed name.now (D.seen folder.old).counts
            (D.seen folder.new).counts) }
        ensures done { OnOk result ((D.seen folder.new).counts ≡ (D.seen folder.old).counts) }
        ensures counts { OnlyWrites (D.seen folder.old).counts (D.seen folder.new).counts }
    {
        for _i in 0..count {
            self.frame(folder, name)?;
        }
        Ok(())
    }

    /// Appends the stream of `count` frames.
    ///
    /// # Errors
    /// If a write failed. Then a prefix of the stream was appended.
    pub(crate) fn write<D: Folder>(
        &mut self,
        count: u32,
        folder: &mut D,
        name: &str,
    ) -> Result<(), Failed>
        requires there { IsFileThere (D.seen folder.old).files name.now }
        requires new { IsNewQueue (class_of drill_header) self.old.writer }
        requires none { self.old.unsent ≡ [] }
        ensures written { OnOk result ((D.seen folder.new).files
            ≡ with_appended_bytes (D.seen folder.old).files name.now
            (drill_stream self.old.draws.state count)) }
        ensures prefix { OnErr result (AppendedPrefix name.now
            (drill_stream self.old.draws.state count) (D.seen folder.old).files
            (D.seen folder.new).files) }
        ensures failed { OnErr result (WriteFailed name.now (D.seen folder.old).counts
            (D.seen folder.new).counts) }
        ensures done { OnOk result ((D.seen folder.new).counts ≡ (D.seen folder.old).counts) }
        ensures counts { OnlyWrites (D.seen folder.old).counts (D.seen folder.new).counts }
    {
        self.frames(count, folder, name)?;
        self.writer.finish(folder, name, &mut self.unsent)?;
        self.unsent.finish(folder, name)
    }
}
