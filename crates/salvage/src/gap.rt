//! What isn't read of a damaged file.

use sync_survey::HasOffset;

/// Bytes that aren't read: the offset of the first of them, and how many there are.
#[derive(Clone, Copy, Debug, PartialEq, Eq)]
pub struct Gap {
    pub offset: u64,
    pub length: u64,
}

impl HasOffset for Gap {
    ghost offset_of = { λ g. g.offset };

    fn offset_in_file(&self) -> u64 {
        self.offset
    }
}
