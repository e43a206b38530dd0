//! A sink of bytes.
ghost use Rattle.outside.specs.Seen.{Heard};
ghost use Rattle.outside.specs.Answers.{SendAnswer};

use crate::folder::Failed;

/// A sink of bytes in order, such as standard output.
pub trait Sink {
    /// What is seen of it: the bytes that it got, if they are known, and how often a write failed.
    /// Whether the bytes are known never changes.
    ghost heard: { Self → Heard };

    /// Takes a prefix of the bytes, and returns how many: at least one if there are any.
    ///
    /// # Errors
    /// If the call failed. Then the bytes, if they are known, are unchanged.
    fn write(&mut self, bytes: &[u8]) -> Result<usize, Failed>
        ensures answer { SendAnswer bytes.now (heard self.old) (heard self.new) result };
}
