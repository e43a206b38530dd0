//! The bytes of a file, read through one buffer.
ghost use Rattle.std.specs.Prelude.{◌≡◌, ◌+◌, ◌-◌, ◌^◌, ◌<◌, ◌≤◌, List, ℕ, [], length, take, drop, IfOk};
ghost use Rattle.outside.specs.Files.{Files, IsFileThere};
ghost use Rattle.outside.specs.Feed.{IsFedFrom, most_given};
ghost use Rattle.outside.specs.Answers.{FillAnswer};

use crate::folder::{Failed, Folder};
use crate::helpers::read_on;
use crate::sizes::BUFFER_SIZE;
use std::alloc::{AllocError, Global};
use std::marker::Model;

/// A view of one file through a buffer of 65,536 bytes. Contracts see it as the bytes that it holds, their
/// offset in the file, and the bytes that the last `fill` gave.
#[derive(Drop)]
pub struct Feed {
    room: Vec<u8>,
    file_offset: u64,
    held: usize,
    from: usize,
    to: usize,
}

impl Model for Feed {
    ghost use Rattle.std.specs.Prelude.{◌-◌, take, drop};
    ghost use Rattle.outside.specs.Feed.{Fed, AreFeedBounds};

    ghost Value = { Fed };

    ghost view = { λ f. record {
      file_offset = f.file_offset;
      held = take f.held f.room.items;
      given = take (f.to - f.from) (drop f.from f.room.items);
    } };

    ghost invariant = { λ f. AreFeedBounds f.room.items f.file_offset f.held f.from f.to };
}

impl Feed {
    /// A feed that holds no bytes and has given none. It takes all its memory here.
    ///
    /// # Errors
    /// If memory runs out.
    pub fn new(alloc: Global) -> Result<Feed, AllocError>
        ensures held { IfOk result (λ feed. feed.held ≡ []) }
        ensures given { IfOk result (λ feed. feed.given ≡ []) }
        ensures fed { IfOk result (λ feed. (files : Files) (name : List ℕ)
            → IsFedFrom feed files name) }
    {
        Ok(Feed {
            room: vec![in alloc; 0; BUFFER_SIZE]?,
            file_offset: 0,
            held: 0,
            from: 0,
            to: 0,
        })
    }

    /// Forgets what is held and given, for use before another file is read or after this one
    /// changed.
    pub fn clear(&mut self)
        ensures held { self.new.held ≡ [] }
        ensures given { self.new.given ≡ [] }
        ensures fed { (files : Files) (name : List ℕ) → IsFedFrom self.new files name }
    {
        self.held = 0;
        self.from = 0;
        self.to = 0;
    }

    /// The bytes that the last `fill` gave: none before the first one, after `clear`, and after a
    /// `fill` that failed.
    #[inline]
    pub fn bytes(&self) -> &[u8]
        ensures { result.now ≡ self.now.given }
    {
        &self.room[self.from..self.to]
    }

    /// Gives `n` bytes of the file from the offset `at` on, or all that are left if there are
    /// fewer, and returns how many. `n` is at most 4,096, and the bytes end at 2^32 or before. It
    /// reads only if it doesn't hold them, each time asking for all that its buffer has room for,
    /// and stops once it has `n`. It takes no memory.
    ///
    /// What is held must be of this file: a feed is cleared before it is used for another file, and
    /// before this one changes.
    ///
    /// # Errors
    /// If a read failed. Then nothing is given.
    #[inline]
    pub fn fill<D: Folder>(
        &mut self,
        folder: &mut D,
        name: &str,
        at: u64,
        n: usize,
    ) -> Result<usize, Failed>
        requires there { IsFileThere (D.seen folder.old).files name.now }
        requires few { n ≤ most_given }
        requires short { at + n ≤ 2 ^ 32 }
        requires fed { IsFedFrom self.old (D.seen folder.old).files name.now }
        ensures { FillAnswer name.now at n self.new (D.seen folder.old) (D.seen folder.new) result }
    {
        let held_to = self.file_offset + self.held as u64;
        if self.file_offset <= at && at + n as u64 <= held_to {
            self.from = (at - self.file_offset) as usize;
            self.to = self.from + n;
            return Ok(n);
        }
        self.refill(folder, name, at, n)
    }

    // Moves what is held from `at` on to the beginning of the buffer, and reads what follows it.
    #[inline(never)]
    fn refill<D: Folder>(
        &mut self,
        folder: &mut D,
        name: &str,
        at: u64,
        n: usize,
    ) -> Result<usize, Failed>
        requires there { IsFileThere (D.seen folder.old).files name.now }
        requires few { n ≤ most_given }
        requires short { at + n ≤ 2 ^ 32 }
        requires fed { IsFedFrom self.old (D.seen folder.old).files name.now }
        ensures { FillAnswer name.now at n self.new (D.seen folder.old) (D.seen folder.new) result }
    {
        let room = self.room.as_mut_slice();
        let kept = keep_from(room, 0, self.held, self.file_offset, at);
        self.file_offset = at;
        self.held = 0;
        self.from = 0;
        self.to = 0;
        self.held = read_on(folder, name, at, room, kept, n)?;
        self.to = n.min(self.held);
        Ok(self.to)
    }
}

/// Moves all that is held of a file from the offset `at` on to the beginning of a buffer, and
/// returns how many bytes that is: none where `at` isn't among them. The bytes of the buffer from
/// `begin` up to `end` are held, and the first of them is at the offset `file_offset` of the file.
pub fn keep_from(room: &mut [u8], begin: usize, end: usize, file_offset: u64, at: u64) -> usize
    requires ordered { begin ≤ end }
    requires within { end ≤ length room.old }
    ensures fewer { result ≤ end - begin }
    ensures kept { (bytes : List ℕ) → take (end - begin) (drop file_offset bytes)
        ≡ take (end - begin) (drop begin room.old)
        → take result room.new ≡ take result (drop at bytes) }
    ensures early { at < file_offset → result ≡ 0 }
    ensures whole { file_offset ≤ at → take result room.new
        ≡ drop (at - file_offset) (take (end - begin) (drop begin room.old)) }
{
    if at < file_offset || (end - begin) as u64 <= at - file_offset {
        return 0;
    }
    let from = begin + (at - file_offset) as usize;
    room.copy_within(from..end, 0);
    end - from
}
