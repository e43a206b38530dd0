//! Files in memory by name, each in memory that was reserved before.
ghost use Rattle.std.specs.Prelude.{◌≡◌, ◌+◌, ◌≤◌, [], ◌++◌, length, None, Some, OnOk, OnErr, IfOk, IsSome, is_some, unwrap_or, option_copied, nat_le, if◌then◌else◌, bytes_eq};
ghost use Rattle.std.specs.Map.{update};
ghost use Rattle.outside.specs.Files.{with_file};

use crate::memory::buffer::Buffer;
use std::alloc::{AllocError, Global};
use std::collections::BTreeMap;

/// The room for a name, and its file if there is one. (Not a slot in the sense of the format.)
#[derive(Drop)]
pub struct FileRoom {
    buffer: Buffer,
    there: bool,
}

impl FileRoom {
    ghost use Rattle.outside.specs.FileRooms.{content_of};

    /// Room for `room` bytes, and a file of the bytes if any are given.
    ///
    /// # Errors
    /// If memory runs out.
    pub fn new(alloc: Global, room: u64, bytes: Option<&[u8]>) -> Result<Self, AllocError>
        requires { length (unwrap_or (option_copied bytes) []) ≤ room }
        ensures content { IfOk result (λ s. content_of s ≡ option_copied bytes.entry) }
        ensures room { IfOk result (λ s. s.buffer.room ≡ room) }
    {
        let buffer = Buffer::with_room(alloc, room, bytes.unwrap_or(&[]))?;
        Ok(FileRoom {
            buffer,
            there: bytes.is_some(),
        })
    }

    /// How many bytes there may be.
    pub fn room(&self) -> u64
        ensures value { result ≡ self.now.buffer.room }
        ensures enough { length (unwrap_or (content_of self.now) []) ≤ result }
    {
        self.buffer.room()
    }

    /// The bytes of the file, if there is one.
    pub fn content(&self) -> Option<&[u8]>
        ensures { option_copied result ≡ content_of self.now }
    {
        if self.there {
            Some(self.buffer.bytes())
        } else {
            None
        }
    }

    /// Makes it a file of no bytes.
    pub fn create(&mut self)
        ensures content { content_of self.new ≡ Some [] }
        ensures room { self.new.buffer.room ≡ self.old.buffer.room }
    {
        self.buffer.clear();
        self.there = true;
    }

    /// Adds the bytes to the file if there is room for all of them, and returns whether there is.
    pub fn append(&mut self, bytes: &[u8]) -> bool
        requires { IsSome (content_of self.old) }
        ensures fits { result ≡ nat_le (length
            (unwrap_or (content_of self.old) []) + length bytes.now) self.old.buffer.room }
        ensures content { content_of self.new
            ≡ (if result then Some (unwrap_or (content_of self.old) [] ++ bytes.now) else content_of
            self.old) }
        ensures room { self.new.buffer.room ≡ self.old.buffer.room }
    {
        self.buffer.append(bytes)
    }
}

/// The room and the file of each name that was put or reserved.
#[derive(Drop)]
pub struct FileRooms {
    by_name: BTreeMap<String, FileRoom>,
}

impl FileRooms {
    ghost use Rattle.outside.specs.FileRooms.{content_of, contents_in, rooms_in};

    pub fn new(alloc: Global) -> Self
        ensures contents { contents_in result ≡ (λ _. None) }
        ensures rooms { rooms_in result ≡ (λ _. None) }
    {
        FileRooms {
            by_name: BTreeMap::new(alloc),
        }
    }

    /// The bytes of a name, if it is there.
    pub fn content(&self, name: &str) -> Option<&[u8]>
        ensures { option_copied result ≡ contents_in self.now name.now }
    {
        self.by_name.get(name)?.content()
    }

    /// The room for a name, or 0 if it has none.
    pub fn room(&self, name: &str) -> u64
        ensures value { result ≡ unwrap_or (rooms_in self.now name.now) 0 }
        ensures enough { length (unwrap_or (contents_in self.now name.now) []) ≤ result }
    {
        match self.by_name.get(name) {
            Some(slot) => slot.room(),
            None => 0,
        }
    }

    /// Gives the name this room and file instead of what it has.
    ///
    /// # Errors
    /// If memory runs out. Then rooms and files are unchanged.
    pub fn set(&mut self, alloc: Global, name: &str, slot: FileRoom) -> Result<(), AllocError>
        ensures contents { OnOk result (contents_in self.new ≡ update bytes_eq
            (contents_in self.old) name.now (content_of slot)) }
        ensures rooms { OnOk result (rooms_in self.new ≡ update bytes_eq
            (rooms_in self.old) name.now (Some slot.buffer.room)) }
        ensures contents_kept { OnErr result (contents_in self.new ≡ contents_in self.old) }
        ensures rooms_kept { OnErr result (rooms_in self.new ≡ rooms_in self.old) }
    {
        let key = String::from_str(alloc, name)?;
        self.by_name.insert(key, slot)?;
        Ok(())
    }

    /// Makes the name a file of no bytes if it has room, and returns whether it has.
    pub fn create(&mut self, name: &str) -> bool
        ensures answer { result ≡ is_some (rooms_in self.old name.now) }
        ensures contents { contents_in self.new
            ≡ (if result then with_file (contents_in self.old) name.now [] else contents_in
            self.old) }
        ensures rooms { rooms_in self.new ≡ rooms_in self.old }
    {
        match self.by_name.get_mut(name) {
            Some(slot) => {
                slot.create();
                true
            }
            None => false,
        }
    }

    /// Adds the bytes to the file if there is room for all of them, and returns whether there is.
    pub fn append(&mut self, name: &str, bytes: &[u8]) -> bool
        requires { IsSome (contents_in self.old name.now) }
        ensures answer { result ≡ nat_le (length
            (unwrap_or (contents_in self.old name.now) []) + length bytes.now)
            (unwrap_or (rooms_in self.old name.now) 0) }
        ensures contents { contents_in self.new
            ≡ (if result then with_file (contents_in self.old) name.now
            (unwrap_or (contents_in self.old name.now) [] ++ bytes.now) else contents_in self.old) }
        ensures rooms { rooms_in self.new ≡ rooms_in self.old }
    {
        match self.by_name.get_mut(name) {
            Some(slot) => slot.append(bytes),
            None => false,
        }
    }
}
