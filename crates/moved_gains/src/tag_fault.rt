//! Why the tag of a file isn't read.
ghost use Rattle.std.specs.Prelude.{◌≡◌};
ghost use Rattle.moved_gains.specs.declared.tag_fault.FileTagFault.TheVariants.{Read, Memory};

use outside::ReadFault;
use std::alloc::AllocError;

/// Why the tag of a file isn't read. Lengths and offsets are in bytes.
#[derive(Clone, Copy, Debug, PartialEq, Eq)]
pub enum FileTagFault {
    /// The tag's block is longer than 1,048,576 bytes: its length.
    TooLarge(u64),
    /// The tag's block isn't an APEv2 tag: the offset in the file of its first fault.
    Bad(u64),
    /// The block could not be read.
    Read(ReadFault),
    /// Memory ran out.
    Memory,
}

impl From<ReadFault> for FileTagFault {
    ghost from_gives = { λ fault e. e ≡ Read fault };

    fn from(fault: ReadFault) -> FileTagFault {
        FileTagFault::Read(fault)
    }
}

impl From<AllocError> for FileTagFault {
    ghost from_gives = { λ _ fault. fault ≡ Memory };

    fn from(_: AllocError) -> FileTagFault {
        FileTagFault::Memory
    }
}
