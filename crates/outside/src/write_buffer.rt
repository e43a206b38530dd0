//! Bytes that wait to be written to a file.
ghost use Rattle.std.specs.Prelude.{◌≡◌, ◌+◌, ◌-◌, ◌<◌, ◌≤◌, [], length, take, IfOk};
ghost use Rattle.outside.specs.Files.{IsFileThere};
ghost use Rattle.outside.specs.Answers.{PushAnswer, FinishAnswer, WholeAnswer};
ghost use Rattle.outside.specs.Feed.{buffer_size};

use crate::folder::{Failed, Folder};
use crate::helpers::write_all;
use crate::in_place::{InPlace, MOST_IN_PLACE};
use crate::sizes::BUFFER_SIZE;
use crate::waiting::WaitingBytes;
use std::alloc::{AllocError, Global};
use std::marker::Model;

/// A buffer of 65,536 bytes for one file. Contracts see it as the bytes that wait.
///
/// It is filled before it is written, so that every write but the last is of a multiple of 65,536
/// bytes.
#[derive(Drop)]
pub struct WriteBuffer {
    waiting: WaitingBytes,
}

impl Model for WriteBuffer {
    ghost use Rattle.std.specs.Prelude.{ℕ, List};

    ghost Value = { List ℕ };

    ghost view = { λ b. b.waiting };
}

impl WriteBuffer {
    /// A buffer in which nothing waits. It takes all its memory here.
    ///
    /// # Errors
    /// If memory runs out.
    pub fn new(alloc: Global) -> Result<WriteBuffer, AllocError>
        ensures { IfOk result (λ buffer. buffer ≡ []) }
    {
        Ok(WriteBuffer {
            waiting: WaitingBytes::new(alloc)?,
        })
    }

    /// Adds any number of bytes to what waits. If that would be more than 65,536, the first of them
    /// are appended to the file, in multiples of 65,536.
    ///
    /// # Errors
    /// If a write failed. Then a prefix of what waited and the piece, and not all, was appended,
    /// and nothing waits.
    #[inline]
    pub fn push<D: Folder>(
        &mut self,
        folder: &mut D,
        name: &str,
        piece: &[u8],
    ) -> Result<(), Failed>
        requires { IsFileThere (D.seen folder.old).files name.now }
        ensures { PushAnswer name.now self.old piece.now self.new (D.seen folder.old)
            (D.seen folder.new) result }
    {
        if piece.len() <= self.waiting.free() {
            self.waiting.add(piece);
            return Ok(());
        }
        self.push_over(folder, name, piece)
    }

    /// Adds bytes to what waits, as `push` does, but where there is room they are made in place.
    ///
    /// # Errors
    /// If a write failed. Then a prefix of what waited and these bytes, and not all, was appended,
    /// and nothing waits.
    #[inline(always)]
    pub fn push_made<D: Folder, M: InPlace>(
        &mut self,
        folder: &mut D,
        name: &str,
        made: &M,
    ) -> Result<(), Failed>
        requires { IsFileThere (D.seen folder.old).files name.now }
        ensures { PushAnswer name.now self.old (M.bytes_of made.now) self.new (D.seen folder.old)
            (D.seen folder.new) result }
    {
        if MOST_IN_PLACE <= self.waiting.free() {
            self.waiting.add_made(made);
            return Ok(());
        }
        let mut room = [0; MOST_IN_PLACE];
        let count = made.put_in(&mut room);
        self.push(folder, name, &room[..count])
    }

    /// Appends what waits to the file.
    ///
    /// # Errors
    /// If a write failed. Then a prefix of what waited, and not all, was appended, and nothing
    /// waits.
    pub fn finish<D: Folder>(&mut self, folder: &mut D, name: &str) -> Result<(), Failed>
        requires { IsFileThere (D.seen folder.old).files name.now }
        ensures { FinishAnswer name.now self.old self.new (D.seen folder.old)
            (D.seen folder.new) result }
    {
        let written = write_all(folder, name, self.waiting.bytes());
        self.waiting.clear();
        written
    }

    // Adds bytes that don't fit: fills the buffer and appends it to the file, then appends the
    // greatest multiple of 65,536 of the bytes that are left. The rest waits.
    #[inline(never)]
    fn push_over<D: Folder>(
        &mut self,
        folder: &mut D,
        name: &str,
        piece: &[u8],
    ) -> Result<(), Failed>
        requires there { IsFileThere (D.seen folder.old).files name.now }
        requires over { buffer_size < length self.old + length piece.now }
        ensures { PushAnswer name.now self.old piece.now self.new (D.seen folder.old)
            (D.seen folder.new) result }
    {
        let free = self.waiting.free();
        self.waiting.add(&piece[..free]);
        self.finish(folder, name)?;
        let done = write_whole(folder, name, &piece[free..])?;
        self.waiting.add(&piece[free + done..]);
        Ok(())
    }
}

// Appends the first of the bytes, the greatest multiple of 65,536 of them, in one write if the
// folder takes them, and returns how many bytes these are.
fn write_whole<D: Folder>(folder: &mut D, name: &str, bytes: &[u8]) -> Result<usize, Failed>
    requires { IsFileThere (D.seen folder.old).files name.now }
    ensures { WholeAnswer name.now bytes.now (D.seen folder.old) (D.seen folder.new) result }
{
    let whole = bytes.len() - bytes.len() % BUFFER_SIZE;
    write_all(folder, name, &bytes[..whole])?;
    Ok(whole)
}
