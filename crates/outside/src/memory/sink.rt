//! A sink in memory, for tests.
ghost use Rattle.std.specs.Prelude.{◌≡◌, ◌<◌, [], ◌∷◌, ◌++◌, max, OnOk, OnErr};
ghost use Rattle.outside.specs.Answers.{SendAnswer};
ghost use Rattle.outside.specs.Memory.{MemSends};

use crate::folder::Failed;
use crate::memory::buffer::Buffer;
use crate::memory::schedule::Schedule;
use crate::sink::Sink;
use std::alloc::{AllocError, Global};

/// A sink in memory. Its bytes are known, and a `write` takes no memory: the sink has a room in
/// bytes, for which `reserve` takes the memory. A `write` fails exactly if it is on the list of
/// those that are to fail, or if the sink would then have more bytes than room.
#[derive(Drop)]
pub struct MemSink {
    alloc: Global,
    buffer: Buffer,
    faults: u64,
    writes: Schedule,
}

impl MemSink {
    ghost use Rattle.outside.specs.Memory.{bytes_sent, sink_room, sink_faults, writes_made, writes_to_fail};

    /// A sink without bytes and room, with count 0 and nothing that is to fail.
    pub fn new(alloc: Global) -> Self
        ensures sent { bytes_sent result ≡ [] }
        ensures room { sink_room result ≡ 0 }
        ensures faults { sink_faults result ≡ 0 }
        ensures made { writes_made result ≡ 0 }
        ensures failing { writes_to_fail result ≡ [] }
    {
        MemSink {
            alloc,
            buffer: Buffer::new(alloc),
            faults: 0,
            writes: Schedule::new(alloc),
        }
    }

    /// Makes the room the greater of the old room and this number of bytes. The sink's bytes are
    /// unchanged.
    ///
    /// # Errors
    /// If memory runs out. Then the room is unchanged.
    pub fn reserve(&mut self, bytes: u64) -> Result<(), AllocError>
        ensures room { OnOk result (sink_room self.new ≡ max (sink_room self.old) bytes) }
        ensures room_kept { OnErr result (sink_room self.new ≡ sink_room self.old) }
        ensures sent { bytes_sent self.new ≡ bytes_sent self.old }
        ensures faults { sink_faults self.new ≡ sink_faults self.old }
        ensures made { writes_made self.new ≡ writes_made self.old }
        ensures failing { writes_to_fail self.new ≡ writes_to_fail self.old }
    {
        let room = self.buffer.room().max(bytes);
        self.buffer = Buffer::with_room(self.alloc, room, self.buffer.bytes())?;
        Ok(())
    }

    /// Makes the `write` with this number fail. Writes are counted from 1 over the sink's whole life.
    ///
    /// # Errors
    /// If memory runs out. Then the list of writes that are to fail is unchanged.
    pub fn fail(&mut self, number: u64) -> Result<(), AllocError>
        ensures added { OnOk result (writes_to_fail self.new ≡ writes_to_fail self.old ++ number
            ∷ []) }
        ensures kept { OnErr result (writes_to_fail self.new ≡ writes_to_fail self.old) }
        ensures sent { bytes_sent self.new ≡ bytes_sent self.old }
        ensures room { sink_room self.new ≡ sink_room self.old }
        ensures faults { sink_faults self.new ≡ sink_faults self.old }
        ensures made { writes_made self.new ≡ writes_made self.old }
    {
        self.writes.fail(number)
    }

    /// The sink's bytes.
    pub fn sent(&self) -> &[u8]
        ensures { result.now ≡ bytes_sent self.now }
    {
        self.buffer.bytes()
    }
}

impl Sink for MemSink {
    ghost use Rattle.outside.specs.Memory.{bytes_sent, sink_heard, sink_room, sink_faults, writes_made, writes_to_fail};

    ghost heard = { λ sink. sink_heard sink };

    fn write(&mut self, bytes: &[u8]) -> Result<usize, Failed>
        ensures answer { SendAnswer bytes.now (sink_heard self.old) (sink_heard self.new) result }
        ensures own { MemSends bytes.now self.old self.new result }
    {
        if self.writes.next_fails() || !self.buffer.append(bytes) {
            self.faults = self.faults.saturating_add(1);
            return Err(Failed);
        }
        Ok(bytes.len())
    }
}
