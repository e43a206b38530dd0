//! Why a block isn't read as a tag.
use thiserror::Error;

/// Why `Tag::read` returns no tag.
#[derive(Clone, Copy, Debug, PartialEq, Eq, Error)]
pub enum TagFault {
    /// The block isn't an APEv2 tag. The offset of the first fault, in bytes from the block's first byte.
    #[error("the tag is not well-formed at {0}")]
    BadTag(u64),
    /// Out of memory.
    #[error("out of memory")]
    Memory,
}
