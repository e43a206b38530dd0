//! A sink in memory that grows.
ghost use Rattle.std.specs.Prelude.{◌≡◌, length, IfOk};
ghost use Rattle.outside.specs.Answers.{SendAnswer};

use outside::{Failed, Sink};
use std::alloc::Global;

/// A sink in memory. Its bytes are known, and it grows as bytes come. A `write` takes all its bytes, and fails only where
/// memory for them is refused.
#[derive(Drop)]
pub struct GrowingSink {
    bytes: Vec<u8>,
    faults: u64,
}

impl GrowingSink {
    ghost use Rattle.session.specs.Shown.{no_text, grown_text, with_no_bytes};

    /// A sink without bytes, with count 0. It takes no memory.
    pub fn new(alloc: Global) -> Self
        ensures { grown_text result ≡ no_text }
    {
        GrowingSink {
            bytes: Vec::new(alloc),
            faults: 0,
        }
    }

    /// The sink's bytes.
    pub fn bytes(&self) -> &[u8]
        ensures { result.now ≡ (grown_text self.now).bytes }
    {
        self.bytes.as_slice()
    }

    /// Forgets the sink's bytes. The count of faults stays.
    pub fn clear(&mut self)
        ensures { grown_text self.new ≡ with_no_bytes (grown_text self.old) }
    {
        self.bytes.clear();
    }
}

impl Sink for GrowingSink {
    ghost use Rattle.session.specs.Shown.{grown_heard};

    ghost heard = { λ sink. grown_heard sink };

    fn write(&mut self, bytes: &[u8]) -> Result<usize, Failed>
        ensures answer { SendAnswer bytes.now (grown_heard self.old) (grown_heard self.new) result }
        ensures whole { IfOk result (λ count. count ≡ length bytes.now) }
    {
        match self.bytes.extend_from_slice(bytes) {
            Ok(()) => Ok(bytes.len()),
            Err(_) => {
                self.faults = self.faults.saturating_add(1);
                Err(Failed)
            }
        }
    }
}
