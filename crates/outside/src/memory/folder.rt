//! A folder in memory, for tests.
ghost use Rattle.std.specs.Prelude.{◌≡◌, ◌≢◌, ◌+◌, ◌-◌, ◌<◌, [], ◌∷◌, ◌++◌, None, Some, Ok, Err, false, length, take, drop, min, OnOk, OnErr, option_copied};
ghost use Rattle.outside.specs.Files.{Told, with_file, IsFileThere, AreOctets};
ghost use Rattle.outside.specs.Counts.{no_counts};
ghost use Rattle.outside.specs.Answers.{FindAnswer, ReadAnswer, ThereAnswer, CreateAnswer, MakeAnswer, WriteAnswer};
ghost use Rattle.outside.specs.Memory.{MemFinds, MemReads, MemAsks, MemCreates, MemMakes, MemWrites};

use crate::folder::{Failed, FindFault, Folder};
use crate::memory::file_rooms::{FileRoom, FileRooms};
use crate::memory::schedule::Schedule;
use crate::tally::Tally;
use std::alloc::{AllocError, Global};

/// The kinds of calls to a folder.
#[derive(Clone, Copy, Debug, PartialEq, Eq)]
pub enum Call {
    /// `Folder::find`
    Find,
    /// `Folder::read`
    Read,
    /// `Folder::there`
    There,
    /// `Folder::create` and `Folder::create_new`
    Create,
    /// `Folder::write`
    Write,
}

/// A folder in memory. The content of its files is known, and a call of its trait takes no memory:
/// each name has a room in bytes, for which `put` and `reserve` take the memory. A call of the
/// trait fails exactly if it is on the list of calls that are to fail, if `create` is given a name
/// without a room or `create_new` such a name or one that is there, or if `write` would make a file
/// longer than its room.
#[derive(Drop)]
pub struct MemFolder {
    alloc: Global,
    slots: FileRooms,
    // A folder over this one may count in it too.
    pub(super) tally: Tally,
    finds: Schedule,
    reads: Schedule,
    theres: Schedule,
    creates: Schedule,
    writes: Schedule,
}

impl MemFolder {
    ghost use Rattle.outside.specs.Memory.{contents_of, rooms_of, with_room, mem_counts, calls_made, calls_to_fail, MakesNoCall};

    /// A folder without files and rooms, with all counts 0 and nothing that is to fail.
    pub fn new(alloc: Global) -> Self
        ensures contents { contents_of result ≡ (λ _. None) }
        ensures rooms { rooms_of result ≡ (λ _. None) }
        ensures counts { mem_counts result ≡ no_counts }
        ensures made { (call : Call) → calls_made result call ≡ 0 }
        ensures failing { (call : Call) → calls_to_fail result call ≡ [] }
    {
        MemFolder {
            alloc,
            slots: FileRooms::new(alloc),
            tally: Tally::new(),
            finds: Schedule::new(alloc),
            reads: Schedule::new(alloc),
            theres: Schedule::new(alloc),
            creates: Schedule::new(alloc),
            writes: Schedule::new(alloc),
        }
    }

    /// Makes the name hold these bytes. Its room becomes the greater of its old room and their
    /// number.
    ///
    /// # Errors
    /// If memory runs out. Then files and rooms are unchanged.
    #[tactic(auto, unfolding(crate::specs::Files::with_file))]
    pub fn put(&mut self, name: &str, bytes: &[u8]) -> Result<(), AllocError>
        ensures contents { OnOk result (contents_of self.new ≡ with_file
            (contents_of self.old) name.now bytes.now) }
        ensures rooms { OnOk result (rooms_of self.new ≡ with_room (rooms_of self.old) name.now
            (length bytes.now)) }
        ensures contents_kept { OnErr result (contents_of self.new ≡ contents_of self.old) }
        ensures rooms_kept { OnErr result (rooms_of self.new ≡ rooms_of self.old) }
        ensures others { MakesNoCall self.old self.new }
    {
        let room = self.slots.room(name).max(bytes.len() as u64);
        let slot = FileRoom::new(self.alloc, room, Some(bytes))?;
        self.slots.set(self.alloc, name, slot)
    }

    /// Makes the name's room the greater of its old room and this number of bytes. All files are
    /// unchanged.
    ///
    /// # Errors
    /// If memory runs out. Then the rooms are unchanged.
    pub fn reserve(&mut self, name: &str, bytes: u64) -> Result<(), AllocError>
        ensures contents { contents_of self.new ≡ contents_of self.old }
        ensures rooms { OnOk result (rooms_of self.new ≡ with_room
            (rooms_of self.old) name.now bytes) }
        ensures rooms_kept { OnErr result (rooms_of self.new ≡ rooms_of self.old) }
        ensures others { MakesNoCall self.old self.new }
    {
        let room = self.slots.room(name).max(bytes);
        let slot = FileRoom::new(self.alloc, room, self.slots.content(name))?;
        self.slots.set(self.alloc, name, slot)
    }

    /// The bytes of the file, or `None` if the name isn't there.
    pub fn get(&self, name: &str) -> Option<&[u8]>
        ensures { option_copied result ≡ contents_of self.now name.now }
    {
        self.slots.content(name)
    }

    /// Makes the call of this kind with this number fail. Calls are counted from 1 over the folder's
    /// whole life, up to `u64::MAX`.
    ///
    /// # Errors
    /// If memory runs out. Then the list of calls that are to fail is unchanged.
    pub fn fail(&mut self, call: Call, number: u64) -> Result<(), AllocError>
        ensures added { OnOk result (calls_to_fail self.new call
            ≡ calls_to_fail self.old call ++ number ∷ []) }
        ensures others { (other : Call) → other ≢ call
            → calls_to_fail self.new other ≡ calls_to_fail self.old other }
        ensures kept { OnErr result (calls_to_fail self.new call ≡ calls_to_fail self.old call) }
        ensures made { (kind : Call) → calls_made self.new kind ≡ calls_made self.old kind }
        ensures counts { mem_counts self.new ≡ mem_counts self.old }
        ensures contents { contents_of self.new ≡ contents_of self.old }
        ensures rooms { rooms_of self.new ≡ rooms_of self.old }
    {
        match call {
            Call::Find => self.finds.fail(number),
            Call::Read => self.reads.fail(number),
            Call::There => self.theres.fail(number),
            Call::Create => self.creates.fail(number),
            Call::Write => self.writes.fail(number),
        }
    }
}

/// The number of bytes.
fn size_of(bytes: &[u8]) -> u64
    ensures size { result ≡ length bytes.now }
    // The type says that they are bytes.
    ensures octets { AreOctets bytes.now }
{
    bytes.len() as u64
}

impl Folder for MemFolder {
    ghost use Rattle.outside.specs.Memory.{contents_of, seen_of, mem_counts};

    ghost seen = { λ folder. seen_of folder };

    ghost keeping = { false };

    fn keeps(&self) -> bool {
        false
    }

    fn find(&mut self, name: &str) -> Result<u64, FindFault>
        ensures answer { FindAnswer name.now (seen_of self.old) (seen_of self.new) result }
        ensures own { MemFinds name.now self.old self.new result }
    {
        if self.finds.next_fails() {
            self.tally.count_read_fault(name);
            return Err(FindFault::Failed);
        }
        match self.slots.content(name) {
            Some(content) => Ok(size_of(content)),
            None => {
                self.tally.count_miss(name);
                Err(FindFault::Absent)
            }
        }
    }

    fn read(&mut self, name: &str, at: u64, into: &mut [u8]) -> Result<usize, Failed>
        requires { IsFileThere (Told (contents_of self.old)) name.now }
        ensures answer { ReadAnswer name.now at into.old into.new (seen_of self.old)
            (seen_of self.new) result }
        ensures own { MemReads name.now at into.old into.new self.old self.new result }
    {
        if self.reads.next_fails() {
            self.tally.count_read_fault(name);
            return Err(Failed);
        }
        let content = self.slots.content(name).unwrap_or(&[]);
        let count = copy_from(content, at, into);
        self.tally.count_read(name, at, count, into.len());
        Ok(count)
    }

    fn there(&mut self, name: &str) -> Result<bool, Failed>
        ensures answer { ThereAnswer name.now (seen_of self.old) (seen_of self.new) result }
        ensures own { MemAsks name.now self.old self.new result }
    {
        if self.theres.next_fails() {
            self.tally.count_write_fault(name);
            return Err(Failed);
        }
        Ok(self.slots.content(name).is_some())
    }

    fn create(&mut self, name: &str) -> Result<(), Failed>
        ensures answer { CreateAnswer name.now (seen_of self.old) (seen_of self.new) result }
        ensures own { MemCreates name.now self.old self.new result }
    {
        if self.creates.next_fails() || !self.slots.create(name) {
            self.tally.count_write_fault(name);
            return Err(Failed);
        }
        Ok(())
    }

    fn create_new(&mut self, name: &str) -> Result<(), Failed>
        ensures answer { MakeAnswer name.now (seen_of self.old) (seen_of self.new) result }
        ensures own { MemMakes name.now self.old self.new result }
    {
        let there = self.slots.content(name).is_some();
        if self.creates.next_fails() || there || !self.slots.create(name) {
            self.tally.count_write_fault(name);
            return Err(Failed);
        }
        Ok(())
    }

    fn write(&mut self, name: &str, bytes: &[u8]) -> Result<usize, Failed>
        requires { IsFileThere (Told (contents_of self.old)) name.now }
        ensures answer { WriteAnswer name.now bytes.now (seen_of self.old)
            (seen_of self.new) result }
        ensures own { MemWrites name.now bytes.now self.old self.new result }
    {
        if self.writes.next_fails() || !self.slots.append(name, bytes) {
            self.tally.count_write_fault(name);
            return Err(Failed);
        }
        Ok(bytes.len())
    }
}

// Copies the bytes from the offset `at` on, as many as there are and fit, and returns how many.
fn copy_from(content: &[u8], at: u64, into: &mut [u8]) -> usize
    ensures count { result ≡ min (length into.old) (length content.now - at) }
    ensures front { take result into.new ≡ take result (drop at content.now) }
    ensures rest { drop result into.new ≡ drop result into.old }
{
    if at >= content.len() as u64 {
        return 0;
    }
    let rest = &content[at as usize..];
    let count = rest.len().min(into.len());
    into[..count].copy_from_slice(&rest[..count]);
    count
}
