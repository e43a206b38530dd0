//! The areas that wait, in a queue of bytes.
ghost use Rattle.std.specs.Prelude.{◌≡◌, ℕ, ◌+◌, ◌-◌, ◌≤◌, min, List, [], ◌∷◌, ◌++◌, length, take, drop, IfOk, OnOk, OnErr};
ghost use Rattle.outside.specs.Files.{IsFileThere};
ghost use Rattle.outside.specs.BufferOutput.{AppendsWaiting, AppendedPrefix};
ghost use Rattle.outside.specs.Counts.{OnlyWrites};
ghost use Rattle.frame_writer.specs.Laid.{FrameData, WaitingAreas, zeros, areas_after_laying, AreAreasLaid, laid_count, most_waiting};
ghost use Rattle.frame_writer.specs.Writing.{WriteFailed};
ghost use Rattle.outside.specs.Answers.{PassAnswer};
ghost use Rattle.reservoir.specs.Window.{window_size};

use crate::bytes::ByteQueue;
use outside::{Failed, Folder, WriteBuffer};
use reservoir::Payload;
use std::alloc::{AllocError, Global};
use std::marker::Model;

/// How many bytes of areas may wait.
const CAPACITY: usize = 8192;

/// The zeros between the end of one frame's main data and the start of the next one's.
static ZEROS: [u8; CAPACITY] = [0; CAPACITY];

/// The areas of frames whose main data were laid, without the bytes that were taken. Contracts see
/// the bytes that wait, 0 where there are no main data, and how many of them, at their end, are
/// after the main data that were laid last.
#[derive(Drop)]
pub struct Areas {
    // The bytes up to the end of the main data laid last. Only zeros wait after them.
    queue: ByteQueue,
    free: u32,
}

impl Model for Areas {
    ghost use Rattle.std.specs.Prelude.{◌+◌, ◌≤◌, ◌++◌, length};
    ghost use Rattle.frame_writer.specs.Laid.{WaitingAreas, zeros};

    ghost Value = { WaitingAreas };

    ghost view = { λ a. record { bytes = a.queue ++ zeros a.free; free = a.free } };

    ghost invariant = { λ a. length a.queue + a.free ≤ 8192 };
}

impl Areas {
    /// No areas. It takes all its memory here.
    ///
    /// # Errors
    /// If memory runs out.
    pub fn new(alloc: Global) -> Result<Areas, AllocError>
        ensures none { IfOk result (λ areas. areas ≡ record { bytes = []; free = 0 }) }
        ensures laid { IfOk result (λ areas. AreAreasLaid [] areas []) }
    {
        Ok(Areas {
            queue: ByteQueue::new(alloc)?,
            free: 0,
        })
    }

    /// How many bytes wait, at most 8,192.
    pub fn waiting(&self) -> usize
        ensures count { result ≡ length self.now.bytes }
        ensures most { result ≤ most_waiting }
    {
        self.queue.len() + self.free as usize
    }

    /// How many bytes at the end of what waits are after the main data that were laid last: the
    /// next main data may begin in them.
    pub fn free(&self) -> u32
        ensures { result ≡ self.now.free }
    {
        self.free
    }

    /// How many of the bytes that wait no later main data can reach. Later main data begin at most
    /// `window` bytes before their frame's own area: 511 in MPEG-1, 255 in MPEG-2 and MPEG-2.5
    /// (main_data_begin, ISO/IEC 11172-3 and 13818-3, 2.4.2.7), and not before the end of the last
    /// main data.
    #[inline]
    pub fn settled(&self, window: u32) -> usize
        ensures { result ≡ length self.now.bytes - min window self.now.free }
    {
        self.waiting() - self.free.min(window) as usize
    }

    /// Adds the area of a frame, which has `area` bytes, and lays the frame's main data: they begin
    /// `begin` bytes before that area, as the frame's main_data_begin says. All other bytes of the
    /// area are 0.
    #[inline]
    pub fn push(&mut self, begin: u32, area: u32, payload: &Payload<'_>)
        requires start { begin ≤ self.old.free }
        requires within { length payload.now ≤ begin + area }
        requires room { length self.old.bytes + area ≤ most_waiting }
        requires few { length payload.now ≤ window_size }
        ensures put { self.new.bytes ≡ areas_after_laying self.old payload.now begin area }
        ensures free { self.new.free + length payload.now ≡ begin + area }
        ensures long { length self.new.bytes ≡ length self.old.bytes + area }
        ensures laid { (given : List ℕ) (ps : List FrameData) → AreAreasLaid given self.old ps →
            AreAreasLaid given self.new
            (ps ++ record { payload = payload.now; begin = begin; area = area } ∷ []) }
    {
        let gap = self.free - begin;
        push_zeros(&mut self.queue, gap as usize);
        push_payload(&mut self.queue, payload);
        self.free = begin + area - payload.len() as u32;
    }

    /// How many of the first `count` bytes of what waits are in the queue; those after them are
    /// zeros.
    #[inline]
    pub(crate) fn stored(&self, count: usize) -> usize
        ensures { result ≡ laid_count count self.now }
    {
        count.min(self.queue.len())
    }

    /// Adds the first `count` bytes of what waits to what waits for the file. `stored` of them are
    /// in the queue, as `stored` says.
    ///
    /// # Errors
    /// If a write failed. Then a prefix of both was appended.
    #[inline]
    pub(crate) fn add_first<D: Folder>(
        &self,
        count: usize,
        stored: usize,
        folder: &mut D,
        name: &str,
        unsent: &mut WriteBuffer,
    ) -> Result<(), Failed>
        requires there { IsFileThere (D.seen folder.old).files name.now }
        requires within { count ≤ length self.now.bytes }
        requires stored { stored ≡ laid_count count self.now }
        ensures { PassAnswer name.now unsent.old (take count self.now.bytes) unsent.new
            (D.seen folder.old) (D.seen folder.new) result }
    {
        let bytes = self.queue.bytes();
        unsent.push(folder, name, &bytes[..stored])?;
        add_zeros(count - stored, folder, name, unsent)
    }

    /// Drops the first `count` bytes of what waits, of which `stored` are in the queue, as `stored`
    /// says. If at most the settled bytes are dropped, all main data that could be laid before can
    /// still be laid.
    #[inline]
    pub(crate) fn drop_first(&mut self, count: usize, stored: usize)
        requires within { count ≤ length self.old.bytes }
        requires stored { stored ≡ laid_count count self.old }
        ensures left { self.new.bytes ≡ drop count self.old.bytes }
        ensures free { self.new.free ≡ min self.old.free (length self.new.bytes) }
        ensures laid { (given : List ℕ) (ps : List FrameData) → AreAreasLaid given self.old ps →
            AreAreasLaid (given ++ take count self.old.bytes) self.new ps }
    {
        self.queue.drop_first(stored);
        self.free -= (count - stored) as u32;
    }

    /// Forgets all that waits.
    pub(crate) fn clear(&mut self)
        ensures none { self.new ≡ record { bytes = []; free = 0 } }
        ensures laid { AreAreasLaid [] self.new [] }
    {
        self.queue.clear();
        self.free = 0;
    }
}

/// `count` zeros.
fn zeros_of(count: usize) -> &'static [u8]
    requires { count ≤ most_waiting }
    ensures { result.now ≡ zeros count }
{
    &ZEROS[..count]
}

/// Adds main data to a queue.
#[inline]
fn push_payload(queue: &mut ByteQueue, payload: &Payload<'_>)
    requires { length queue.old + length payload.now ≤ most_waiting }
    ensures { queue.new ≡ queue.old ++ payload.now }
{
    let (front, back, before, own, last) = payload.pieces();
    push_some(queue, front);
    push_some(queue, back);
    push_some(queue, before);
    push_some(queue, own);
    if let Some(last) = last {
        queue.push(&[last]);
    }
}

/// Adds bytes to a queue. Often there are none.
#[inline]
fn push_some(queue: &mut ByteQueue, bytes: &[u8])
    requires { length queue.old + length bytes.now ≤ most_waiting }
    ensures { queue.new ≡ queue.old ++ bytes.now }
{
    if !bytes.is_empty() {
        queue.push(bytes);
    }
}

/// Adds `count` zeros to a queue.
#[inline]
fn push_zeros(queue: &mut ByteQueue, count: usize)
    requires { length queue.old + count ≤ most_waiting }
    ensures { queue.new ≡ queue.old ++ zeros count }
{
    if count > 0 {
        queue.push(zeros_of(count));
    }
}

/// Adds `count` zeros to what waits for the file.
///
/// # Errors
/// If a write failed. Then a prefix of both was appended.
#[inline]
fn add_zeros<D: Folder>(
    count: usize,
    folder: &mut D,
    name: &str,
    unsent: &mut WriteBuffer,
) -> Result<(), Failed>
    requires there { IsFileThere (D.seen folder.old).files name.now }
    requires few { count ≤ most_waiting }
    ensures { PassAnswer name.now unsent.old (zeros count) unsent.new (D.seen folder.old)
        (D.seen folder.new) result }
{
    if count == 0 {
        return Ok(());
    }
    unsent.push(folder, name, zeros_of(count))
}
