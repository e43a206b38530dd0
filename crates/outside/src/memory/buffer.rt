//! Bytes in memory that was reserved before.
ghost use Rattle.std.specs.Prelude.{◌≡◌, ◌+◌, ◌≤◌, [], ◌++◌, length, IfOk, nat_le, if◌then◌else◌};

use std::alloc::{AllocError, Global};
use std::marker::Model;

/// Bytes with room for more, so that adding bytes takes no memory.
#[derive(Drop)]
pub struct Buffer {
    content: Vec<u8>,
    room: u64,
}

impl Model for Buffer {
    ghost use Rattle.std.specs.Prelude.{◌≤◌, vec_len};
    ghost use Rattle.std.specs.Vec.{vec_capacity};
    ghost use Rattle.outside.specs.HeldBytes.{HeldBytes};

    ghost Value = { HeldBytes };

    ghost view = { λ b. record { bytes = b.content.items; room = b.room } };

    ghost invariant = { λ b. (b.room ≤ vec_capacity b.content) × (vec_len b.content ≤ b.room) };
}

impl Buffer {
    /// No bytes and no room. It takes no memory.
    pub fn new(alloc: Global) -> Self
        ensures { result ≡ record { bytes = []; room = 0 } }
    {
        Buffer {
            content: Vec::new(alloc),
            room: 0,
        }
    }

    /// A copy of the bytes, with room for `room` of them.
    ///
    /// # Errors
    /// If memory runs out.
    pub fn with_room(alloc: Global, room: u64, bytes: &[u8]) -> Result<Self, AllocError>
        requires { length bytes.now ≤ room }
        ensures { IfOk result (λ b. b ≡ record { bytes = bytes.now; room = room }) }
    {
        let mut content = Vec::with_capacity(alloc, room as usize)?;
        content.extend_from_slice(bytes)?;
        Ok(Buffer { content, room })
    }

    pub fn bytes(&self) -> &[u8]
        ensures { result.now ≡ self.now.bytes }
    {
        self.content.as_slice()
    }

    /// How many bytes there may be.
    pub fn room(&self) -> u64
        ensures value { result ≡ self.now.room }
        ensures enough { length self.now.bytes ≤ result }
    {
        // A look inside gives the proof the buffer's invariant, which says that the bytes fit the
        // room.
        let _ = self.content.len();
        self.room
    }

    /// Drops the bytes. The room stays.
    pub fn clear(&mut self)
        ensures { self.new ≡ record self.old { bytes = [] } }
    {
        self.content.clear();
    }

    /// Adds the bytes if there is room for all of them, and returns whether there is.
    pub fn append(&mut self, bytes: &[u8]) -> bool
        ensures fits { result ≡ nat_le (length self.old.bytes + length bytes.now) self.old.room }
        ensures added { self.new ≡ (if result then record self.old
            { bytes = self.old.bytes ++ bytes.now } else self.old) }
    {
        let free = self.room - self.content.len() as u64;
        if bytes.len() as u64 > free {
            return false;
        }
        self.content.extend_from_slice(bytes).is_ok()
    }
}
