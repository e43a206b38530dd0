//! Real streams.
ghost use Rattle.std.specs.Prelude.{◌≡◌, ◌<◌, ◌≤◌, length, take, IfOk, OnOk, OnErr};
ghost use Rattle.outside.specs.Files.{untold_bytes, sent_and_more};
ghost use Rattle.outside.specs.Counts.{HasCause, one_more};
ghost use Rattle.outside.specs.Answers.{SendAnswer};
ghost use Rattle.std.specs.Io.KnownBytes.{Appends};

use crate::writing::write_some;
use outside::{Failed, Sink};
use std::io::Write;

/// A sink over a writer of the library, such as standard output. Each write is followed by a flush.
/// Its bytes aren't known: what becomes of them after the writer isn't proved.
#[derive(Drop)]
pub struct StdSink<W: Write + Drop> {
    writer: W,
    faults: u64,
}

impl<W: Write + Drop> StdSink<W> {
    ghost use Rattle.on_disk.specs.RealFiles.{stream_faults, GrewByPrefix};

    /// A sink over this writer, with count 0.
    pub fn new(writer: W) -> Self
        ensures faults { stream_faults result ≡ 0 }
        ensures writer { result.writer ≡ writer }
    {
        StdSink { writer, faults: 0 }
    }

    fn pass_on(&mut self, bytes: &[u8]) -> Result<usize, Failed>
        ensures bound { IfOk result (λ k. k ≤ length bytes.now) }
        ensures some { IfOk result (λ k. 0 < length bytes.now → 0 < k) }
        ensures passed { IfOk result (λ k. Appends (W.contents self.old.writer)
            (W.contents self.new.writer) (take k bytes.now)) }
        ensures prefix { OnErr result (GrewByPrefix (W.contents self.old.writer)
            (W.contents self.new.writer) bytes.now) }
        ensures faults { stream_faults self.new ≡ stream_faults self.old }
    {
        let count = write_some(&mut self.writer, bytes)?;
        self.writer.flush()?;
        Ok(count)
    }
}

impl<W: Write + Drop> Sink for StdSink<W> {
    ghost use Rattle.on_disk.specs.RealFiles.{stream_heard, stream_faults, GrewByPrefix};

    ghost heard = { λ sink. stream_heard sink };

    /// Writes a prefix of the bytes, and flushes the writer.
    ///
    /// # Errors
    /// If the writer fails, or if it takes none of the bytes though there are some.
    #[tactic(auto, unfolding(outside::specs::Files::sent_and_more))]
    fn write(&mut self, bytes: &[u8]) -> Result<usize, Failed>
        ensures answer { SendAnswer bytes.now (stream_heard self.old)
            (stream_heard self.new) result }
        // If the library knows what the writer holds: exactly these bytes were appended to it, or,
        // by a call that fails, a prefix of them.
        ensures passed { IfOk result (λ k. Appends (W.contents self.old.writer)
            (W.contents self.new.writer) (take k bytes.now)) }
        ensures prefix { OnErr result (GrewByPrefix (W.contents self.old.writer)
            (W.contents self.new.writer) bytes.now) }
        ensures written_faults { OnOk result (stream_faults self.new ≡ stream_faults self.old) }
        ensures failed_faults { OnErr result
            (stream_faults self.new ≡ one_more (stream_faults self.old)) }
    {
        let Ok(count) = self.pass_on(bytes) else {
            self.faults = self.faults.saturating_add(1);
            return Err(Failed);
        };
        Ok(count)
    }
}
