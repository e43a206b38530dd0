//! Frames that wait until no later main data can reach their areas.
ghost use Rattle.std.specs.Prelude.{◌≡◌, ℕ, ◌+◌, ◌-◌, ◌<◌, ◌≤◌, ◌↔◌, List, [], ◌∷◌, ◌++◌, length, drop, min, IsTrue, IfOk, OnOk, OnErr};
ghost use Rattle.frame_header.specs.Tables.{class_of};
ghost use Rattle.outside.specs.Files.{IsFileThere};
ghost use Rattle.outside.specs.BufferOutput.{AppendsWaiting, AppendedPrefix};
ghost use Rattle.outside.specs.Counts.{OnlyWrites};
ghost use Rattle.frame_writer.specs.Frames.{held_bytes, first_area, frame_area, areas_with_frame, Frame, EndsInArea, IsNextSettled, reach_of, reach_after_frame, AreFramesWritten};
ghost use Rattle.frame_writer.specs.Writing.{writing_of, waiting_bytes, bytes_with_frame, IsNewQueue, ForwardsFrames, ForwardsPart, AcceptsFrame, WritesPart, ForwardsBytes, WriteFailed};
ghost use Rattle.frame_writer.specs.Answers.{FrameAnswer, QueueFinish, HandOnAnswer, TakeFirstAnswer};
ghost use Rattle.reservoir.specs.Window.{window_size};

use crate::areas::Areas;
use crate::frames::{Frame, SizedFront, add_frame};
use circular_buffer::HeapCircularBuffer;
use frame_header::Class;
use outside::{Failed, Folder, WriteBuffer};
use std::alloc::{AllocError, Global};
use std::marker::Model;

/// How many frames may wait.
const MOST: usize = 256;

/// Frames of one class on their way to a file: those whose main data were laid, and whose areas
/// later main data may reach. Contracts see the class, the frames that wait, and what waits of
/// their areas. The frames go through a buffer before the file, which is the caller's: what waits
/// in it comes before them.
#[derive(Drop)]
pub struct FrameQueue {
    class: Class,
    // The class's window, so that it isn't computed again for each frame.
    window: u32,
    kept: HeapCircularBuffer<SizedFront>,
    areas: Areas,
}

impl Model for FrameQueue {
    ghost use Rattle.std.specs.Prelude.{◌≡◌, ◌≤◌, length};
    ghost use Rattle.frame_header.specs.Tables.{window_of};
    ghost use Rattle.frame_writer.specs.Frames.{WaitingFrames, AreFieldsOfClass, areas_length};

    ghost Value = { WaitingFrames };

    ghost view = { λ w. record { class = w.class; kept = w.kept.items; waiting = w.areas } };

    ghost invariant = { λ w. (w.kept.capacity ≡ 256) × (length w.kept.items ≤ 256)
        × (areas_length w.kept.items ≡ length w.areas.bytes)
        × AreFieldsOfClass w.class w.kept.items
        × (w.window ≡ window_of w.class.version) };
}

impl FrameQueue {
    /// No frames of this class. It takes all its memory here.
    ///
    /// # Errors
    /// If memory runs out.
    pub fn new(alloc: Global, class: Class) -> Result<FrameQueue, AllocError>
        ensures { IfOk result (IsNewQueue class) }
    {
        Ok(FrameQueue {
            class,
            window: class.window(),
            kept: HeapCircularBuffer::with_capacity(alloc, MOST)?,
            areas: Areas::new(alloc)?,
        })
    }

    /// Starts again, with frames of this class. What waits is forgotten.
    pub fn restart(&mut self, class: Class)
        ensures { IsNewQueue class self.new }
    {
        self.class = class;
        self.window = class.window();
        self.kept.clear();
        self.areas.clear();
    }

    /// The class of the frames.
    pub fn class(&self) -> Class
        ensures { result ≡ self.now.class }
    {
        self.class
    }

    /// Whether it takes a frame. It does, except that it may not after a write that failed.
    pub fn is_ready(&self) -> bool
        ensures { IsTrue result ↔ (IsNextSettled self.now → ⊥) }
    {
        !self.is_next_settled()
    }

    /// How many bytes before its own area the main data of the next frame may begin.
    pub fn reach(&self) -> u32
        ensures { result ≡ reach_of self.now }
    {
        self.areas.free().min(self.window)
    }

    /// How many frames wait, at most 256.
    pub fn count(&self) -> usize
        ensures count { result ≡ length self.now.kept }
        ensures most { result ≤ 256 }
    {
        self.kept.len()
    }

    /// Adds a frame, lays its main data, and forwards what no later main data can reach.
    ///
    /// # Errors
    /// If a write failed. Then of the bytes that waited, and of the frame after them, a prefix was
    /// appended that no later main data can reach.
    #[inline]
    pub fn frame<D: Folder>(
        &mut self,
        frame: &Frame<'_, '_>,
        folder: &mut D,
        name: &str,
        unsent: &mut WriteBuffer,
    ) -> Result<(), Failed>
        requires there { IsFileThere (D.seen folder.old).files name.now }
        requires class { class_of frame.now.kept.header ≡ self.old.class }
        requires start { frame.now.kept.side.main_data_begin ≤ self.old.waiting.free }
        requires within { EndsInArea frame.now }
        requires few { length frame.now.payload ≤ window_size }
        requires unsettled { IsNextSettled self.old → ⊥ }
        ensures answer { FrameAnswer name.now frame.now (writing_of self.old unsent.old)
            (writing_of self.new unsent.new) (D.seen folder.old) (D.seen folder.new) result }
        ensures unsettled { OnOk result (IsNextSettled self.new → ⊥) }
    {
        self.push(frame);
        self.hand_on(folder, name, unsent)
    }

    /// Forwards all that waits to the buffer before the file.
    ///
    /// # Errors
    /// If a write failed. Then a prefix of what waited was appended.
    pub fn finish<D: Folder>(
        &mut self,
        folder: &mut D,
        name: &str,
        unsent: &mut WriteBuffer,
    ) -> Result<(), Failed>
        requires there { IsFileThere (D.seen folder.old).files name.now }
        ensures { QueueFinish name.now (writing_of self.old unsent.old)
            (writing_of self.new unsent.new) (D.seen folder.old) (D.seen folder.new) result }
    {
        while self.count() > 0 {
            self.take_first(folder, name, unsent)?;
        }
        Ok(())
    }

    /// Forwards frames as long as the first is settled.
    #[inline]
    fn hand_on<D: Folder>(
        &mut self,
        folder: &mut D,
        name: &str,
        unsent: &mut WriteBuffer,
    ) -> Result<(), Failed>
        requires there { IsFileThere (D.seen folder.old).files name.now }
        ensures { HandOnAnswer name.now (writing_of self.old unsent.old)
            (writing_of self.new unsent.new) (D.seen folder.old) (D.seen folder.new) result }
    {
        while self.is_next_settled() {
            self.take_first(folder, name, unsent)?;
        }
        Ok(())
    }

    /// Adds a frame, and lays its main data into the areas that wait and its own: they begin
    /// main_data_begin bytes before its own area (ISO/IEC 11172-3 and 13818-3, 2.4.2.7). There is
    /// always room for it if the first frame that waits isn't settled: at most 255 frames wait then
    /// (`few_frames_wait`).
    #[inline]
    fn push(&mut self, frame: &Frame<'_, '_>)
        requires class { class_of frame.now.kept.header ≡ self.old.class }
        requires start { frame.now.kept.side.main_data_begin ≤ self.old.waiting.free }
        requires within { EndsInArea frame.now }
        requires few { length frame.now.payload ≤ window_size }
        requires unsettled { IsNextSettled self.old → ⊥ }
        ensures class { self.new.class ≡ self.old.class }
        ensures kept { self.new.kept ≡ self.old.kept ++ frame.now.kept ∷ [] }
        ensures free { self.new.waiting.free + length frame.now.payload ≡
            frame.now.kept.side.main_data_begin + frame_area frame.now.kept }
        ensures put { self.new.waiting.bytes ≡ areas_with_frame self.old.waiting frame.now }
        ensures written { (taken : List ℕ) (fs : List Frame) → AreFramesWritten taken self.old fs →
            AreFramesWritten taken self.new (fs ++ frame.now ∷ []) }
    {
        let front = frame.front();
        let area = front.area();
        let begin = front.begin_in(self.class);
        let _ = self.kept.try_push_back(front);
        self.areas.push(u32::from(begin), area, &frame.payload);
    }

    /// Takes the first frame that waits, and adds its bytes to what waits for the file: its header,
    /// its check word if it is protected, its side information and its area. If it was settled,
    /// main data can begin afterwards wherever they could before.
    ///
    /// # Errors
    /// If a write failed. Then a prefix of what waited and of the frame was appended.
    #[inline(always)]
    fn take_first<D: Folder>(
        &mut self,
        folder: &mut D,
        name: &str,
        unsent: &mut WriteBuffer,
    ) -> Result<(), Failed>
        requires there { IsFileThere (D.seen folder.old).files name.now }
        requires some { 0 < length self.old.kept }
        ensures { TakeFirstAnswer name.now (writing_of self.old unsent.old)
            (writing_of self.new unsent.new) (D.seen folder.old) (D.seen folder.new) result }
    {
        let first = self.kept.front().unwrap();
        let area = first.area() as usize;
        let stored = self.areas.stored(area);
        let first = first.of_class(self.class);
        let added = add_frame(&first, &self.areas, stored, folder, name, unsent);
        self.kept.pop_front();
        self.areas.drop_first(area, stored);
        added
    }

    /// Whether a frame waits whose area no later main data can reach. Later main data begin at most
    /// 511 bytes before their frame's own area in MPEG-1, 255 in MPEG-2 and MPEG-2.5, and not
    /// before the end of the last main data.
    #[inline]
    fn is_next_settled(&self) -> bool
        ensures { IsTrue result ↔ IsNextSettled self.now }
    {
        match self.kept.front() {
            None => false,
            Some(first) => first.area() as usize <= self.areas.settled(self.window),
        }
    }
}
