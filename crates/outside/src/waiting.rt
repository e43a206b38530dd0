//! Bytes that wait to be passed on.
ghost use Rattle.std.specs.Prelude.{◌≡◌, ◌+◌, ◌≤◌, [], ◌++◌, length, IfOk};
ghost use Rattle.outside.specs.Feed.{buffer_size, most_in_place};

use crate::in_place::{InPlace, MOST_IN_PLACE};
use crate::sizes::BUFFER_SIZE;
use std::alloc::{AllocError, Global};
use std::marker::Model;

/// A buffer of 65,536 bytes for a file or a sink. Contracts see it as the bytes that wait.
#[derive(Drop)]
pub(crate) struct WaitingBytes {
    room: Vec<u8>,
    count: usize,
}

impl Model for WaitingBytes {
    ghost use Rattle.std.specs.Prelude.{◌≡◌, ◌≤◌, ℕ, List, length, take};

    ghost Value = { List ℕ };

    ghost view = { λ w. take w.count w.room.items };

    ghost invariant = { λ w. (length w.room.items ≡ 65536) × (w.count ≤ 65536) };
}

impl WaitingBytes {
    /// A buffer in which nothing waits. It takes all its memory here.
    ///
    /// # Errors
    /// If memory runs out.
    pub fn new(alloc: Global) -> Result<WaitingBytes, AllocError>
        ensures { IfOk result (λ waiting. waiting ≡ []) }
    {
        Ok(WaitingBytes {
            room: vec![in alloc; 0; BUFFER_SIZE]?,
            count: 0,
        })
    }

    /// How many more bytes fit.
    #[inline(always)]
    pub fn free(&self) -> usize
        ensures { length self.now + result ≡ buffer_size }
    {
        BUFFER_SIZE - self.count
    }

    /// What waits.
    #[inline(always)]
    pub fn bytes(&self) -> &[u8]
        ensures { result.now ≡ self.now }
    {
        &self.room[..self.count]
    }

    /// Drops what waits.
    #[inline(always)]
    pub fn clear(&mut self)
        ensures { self.new ≡ [] }
    {
        self.count = 0;
    }

    /// Adds a piece that fits.
    #[inline]
    pub fn add(&mut self, piece: &[u8])
        requires { length self.old + length piece.now ≤ buffer_size }
        ensures { self.new ≡ self.old ++ piece.now }
    {
        let end = self.count + piece.len();
        self.room[self.count..end].copy_from_slice(piece);
        self.count = end;
    }

    /// Adds bytes that are made here, where there is room for 64.
    #[inline(always)]
    pub fn add_made<M: InPlace>(&mut self, made: &M)
        requires { length self.old + most_in_place ≤ buffer_size }
        ensures added { self.new ≡ self.old ++ M.bytes_of made.now }
        ensures few { length self.new ≤ buffer_size }
    {
        let end = self.count + MOST_IN_PLACE;
        self.count += made.put_in(&mut self.room[self.count..end]);
    }
}
