//! Frames written to one file of a folder.
ghost use Rattle.std.specs.Prelude.{◌≡◌, ◌+◌, ◌≤◌, ◌↔◌, [], ◌++◌, length, IsTrue, IfOk, OnOk, OnErr};
ghost use Rattle.frame_header.specs.Tables.{class_of};
ghost use Rattle.side_info.specs.Side.{SideFits};
ghost use Rattle.outside.specs.Files.{IsFileThere, with_appended_bytes};
ghost use Rattle.outside.specs.BufferOutput.{AppendsWaiting, AppendedPrefix};
ghost use Rattle.outside.specs.Counts.{OnlyWrites};
ghost use Rattle.frame_writer.specs.Frames.{held_bytes, frame_with_data, EndsInArea, reach_of, reach_after_frame};
ghost use Rattle.frame_writer.specs.Writing.{writing_of, bytes_with_frame, IsNewQueue, AcceptsFrame, WritesPart, WriteFailed};
ghost use Rattle.frame_writer.specs.Answers.{FrameAnswer, WriterFinish, CanTakeFrame};
ghost use Rattle.reservoir.specs.Window.{window_size};

use crate::frames::Frame;
use crate::queue::FrameQueue;
use frame_header::{Class, Header};
use outside::{Failed, Folder, WriteBuffer};
use reservoir::Payload;
use side_info::{FrameFront, Side};
use std::alloc::{AllocError, Global};
use std::marker::Model;

/// The state of a writer.
#[derive(Clone, Copy, Debug, PartialEq, Eq)]
pub enum State {
    /// It takes frames.
    Open,
    /// A write failed. It takes nothing more.
    Failed,
    /// All frames were written. It takes nothing more.
    Finished,
}

/// Frames of one class, written to one file of a folder: each frame once no later main data can
/// reach its area. Contracts see the frames that wait, with what waits of their areas, and the
/// writer's state. At most 256 frames wait, and at most 8,192 bytes of their areas.
#[derive(Drop)]
pub struct Writer {
    queue: FrameQueue,
    // Nothing waits in it between two calls.
    unsent: WriteBuffer,
    state: State,
}

impl Model for Writer {
    ghost use Rattle.frame_writer.specs.Writer.{Writer, IsWriterSettled};

    ghost Value = { Writer };

    ghost view = { λ w. record { held = w.queue; state = w.state } };

    ghost invariant = { λ w. IsWriterSettled w.state w.queue w.unsent };
}

impl Writer {
    ghost use Rattle.frame_writer.specs.declared.writer.State.{State};

    /// A writer of frames of this class, which has no frame yet. It takes all its memory here.
    ///
    /// # Errors
    /// If memory runs out.
    pub fn new(alloc: Global, class: Class) -> Result<Writer, AllocError>
        ensures new { IfOk result (λ writer. IsNewQueue class writer.held) }
        ensures ready { IfOk result (λ writer. writer.state ≡ State.Open) }
    {
        Ok(Writer {
            queue: FrameQueue::new(alloc, class)?,
            unsent: WriteBuffer::new(alloc)?,
            state: State::Open,
        })
    }

    /// The class of the frames.
    pub fn class(&self) -> Class
        ensures { result ≡ self.now.held.class }
    {
        self.queue.class()
    }

    /// The state of the writer.
    pub fn state(&self) -> State
        ensures { result ≡ self.now.state }
    {
        self.state
    }

    /// How many bytes before its own area the main data of the next frame may begin: at most 511 in
    /// MPEG-1, 255 in MPEG-2 and MPEG-2.5 (main_data_begin, ISO/IEC 11172-3 and 13818-3, 2.4.2.7).
    pub fn reach(&self) -> u32
        ensures { result ≡ reach_of self.now.held }
    {
        self.queue.reach()
    }

    /// How many frames wait, at most 256.
    pub fn count(&self) -> usize
        ensures count { result ≡ length self.now.held.kept }
        ensures most { result ≤ 256 }
    {
        self.queue.count()
    }

    /// Adds a frame with these main data, which begin main_data_begin bytes before its own area and
    /// end in it, and appends to the file what no later main data can reach.
    ///
    /// # Errors
    /// If a write failed. Then of the bytes that waited, and of the frame after them, a prefix was
    /// appended that no later main data can reach, and the writer has failed.
    pub fn frame<D: Folder>(
        &mut self,
        header: &Header,
        side: &Side,
        payload: &[u8],
        folder: &mut D,
        name: &str,
    ) -> Result<(), Failed>
        requires there { IsFileThere (D.seen folder.old).files name.now }
        requires ready { self.old.state ≡ State.Open }
        requires takes { CanTakeFrame self.old.held
            (frame_with_data header.now side.now payload.now) }
        requires fits { SideFits self.old.held.class side.now }
        ensures answer { FrameAnswer name.now (frame_with_data header.now side.now payload.now)
            (writing_of self.old.held []) (writing_of self.new.held []) (D.seen folder.old)
            (D.seen folder.new) result }
        ensures ready { OnOk result (self.new.state ≡ State.Open) }
        ensures ended { OnErr result (self.new.state ≡ State.Failed) }
    {
        let front = FrameFront::new(header, side);
        let frame = Frame::new(&front, Payload::whole(payload));
        self.state = State::Failed;
        self.queue.frame(&frame, folder, name, &mut self.unsent)?;
        self.unsent.finish(folder, name)?;
        self.state = State::Open;
        Ok(())
    }

    /// Appends all that waits to the file.
    ///
    /// # Errors
    /// If a write failed. Then a prefix of what waited was appended, and the writer has failed.
    pub fn finish<D: Folder>(&mut self, folder: &mut D, name: &str) -> Result<(), Failed>
        requires there { IsFileThere (D.seen folder.old).files name.now }
        requires ready { self.old.state ≡ State.Open }
        ensures { WriterFinish name.now self.old.held self.new.held self.new.state
            (D.seen folder.old) (D.seen folder.new) result }
    {
        self.state = State::Failed;
        self.queue.finish(folder, name, &mut self.unsent)?;
        self.unsent.finish(folder, name)?;
        self.state = State::Finished;
        Ok(())
    }
}
