//! The greatest number of frames.

/// The greatest number of frames of an input, not counting the head.
pub const MOST_FRAMES: u32 = 2_900_000;
