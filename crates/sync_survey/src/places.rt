//! Where things are in a file. Offsets and lengths are in bytes.

use crate::HasOffset;
use frame_header::Header;
use tag_blocks::Block;

/// A frame, and the offset of its header.
#[derive(Clone, Copy, Debug, PartialEq, Eq)]
pub struct PlacedFrame {
    pub offset: u64,
    pub header: Header,
}

/// A block, and the offset where it begins.
#[derive(Clone, Copy, Debug, PartialEq, Eq)]
pub struct Piece {
    pub offset: u64,
    pub block: Block,
}

impl HasOffset for Piece {
    ghost offset_of = { λ p. p.offset };

    fn offset_in_file(&self) -> u64 {
        self.offset
    }
}

/// A head: a first frame that has counts and a seek table of the file instead of main data.
#[derive(Clone, Copy, Debug, PartialEq, Eq)]
pub struct Head {
    pub offset: u64,
    pub header: Header,
    /// The offset of `Xing` or `Info` from the frame's first byte, in bytes.
    pub text_at: u32,
}

/// Where the stream begins.
#[derive(Clone, Copy, Debug, PartialEq, Eq)]
pub struct Start {
    /// Where the front of the file ends: its blocks and zero bytes before anything else. The bytes
    /// from here to the first frame, if there are any, are junk.
    pub front_end: u64,
    /// The first frame, which may be a head.
    pub first: PlacedFrame,
}
