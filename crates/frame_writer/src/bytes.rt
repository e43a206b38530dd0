//! A queue of bytes that are contiguous in memory.
ghost use Rattle.std.specs.Prelude.{◌≡◌, ◌+◌, ◌-◌, ◌≤◌, [], ◌++◌, length, take, drop, IfOk};
ghost use Rattle.frame_writer.specs.Laid.{most_waiting};

use std::alloc::{AllocError, Global};
use std::marker::Model;

/// The size of a queue's memory in bytes. It is twice as many as may wait, so that what waits is
/// moved at most once while 8,192 bytes are pushed.
const SIZE: usize = 16_384;

/// A queue of at most 8,192 bytes. Contracts see it as the list of these bytes, the oldest first.
#[derive(Drop)]
pub struct ByteQueue {
    room: Vec<u8>,
    from: usize,
    to: usize,
}

impl Model for ByteQueue {
    ghost use Rattle.std.specs.Prelude.{◌≡◌, ◌+◌, ◌-◌, ◌≤◌, ℕ, List, length, take, drop};

    ghost Value = { List ℕ };

    ghost view = { λ q. take (q.to - q.from) (drop q.from q.room.items) };

    ghost invariant = { λ q. (length q.room.items ≡ 16384) × (q.from ≤ q.to) × (q.to ≤ 16384)
        × (q.to - q.from ≤ 8192) };
}

impl ByteQueue {
    /// An empty queue. It takes all its memory here.
    ///
    /// # Errors
    /// If memory runs out.
    pub fn new(alloc: Global) -> Result<ByteQueue, AllocError>
        ensures { IfOk result (λ queue. queue ≡ []) }
    {
        Ok(ByteQueue {
            room: vec![in alloc; 0; SIZE]?,
            from: 0,
            to: 0,
        })
    }

    /// The bytes.
    #[inline]
    pub fn bytes(&self) -> &[u8]
        ensures { result.now ≡ self.now }
    {
        &self.room[self.from..self.to]
    }

    /// How many bytes there are, at most 8,192.
    #[inline]
    pub fn len(&self) -> usize
        ensures count { result ≡ length self.now }
        ensures most { result ≤ most_waiting }
    {
        self.to - self.from
    }

    /// Adds bytes at the end.
    #[inline]
    pub fn push(&mut self, bytes: &[u8])
        requires { length self.old + length bytes.now ≤ most_waiting }
        ensures { self.new ≡ self.old ++ bytes.now }
    {
        let room = self.room.as_mut_slice();
        make_room(room, &mut self.from, &mut self.to, bytes.len());
        let end = self.to + bytes.len();
        room[self.to..end].copy_from_slice(bytes);
        self.to = end;
    }

    /// Drops the first `count` bytes.
    #[inline]
    pub fn drop_first(&mut self, count: usize)
        requires { count ≤ length self.old }
        ensures { self.new ≡ drop count self.old }
    {
        self.from += count;
    }

    /// Drops all bytes.
    pub fn clear(&mut self)
        ensures { self.new ≡ [] }
    {
        self.from = 0;
        self.to = 0;
    }
}

/// Moves the bytes between two places to the beginning of `room`, if there isn't room for `more`
/// bytes after them.
#[inline]
fn make_room(room: &mut [u8], from: &mut usize, to: &mut usize, more: usize)
    requires ordered { from.old ≤ to.old }
    requires within { to.old ≤ length room.old }
    requires free { to.old - from.old + more ≤ length room.old }
    ensures ordered { from.new ≤ to.new }
    ensures room { to.new + more ≤ length room.old }
    ensures count { to.new - from.new ≡ to.old - from.old }
    ensures same { take (to.new - from.new) (drop from.new room.new) ≡
        take (to.old - from.old) (drop from.old room.old) }
{
    if more > room.len() - *to {
        room.copy_within(*from..*to, 0);
        *to -= *from;
        *from = 0;
    }
}
