//! How much is read, written and copied at once.

/// The size of a buffer in bytes.
pub const BUFFER_SIZE: usize = 65_536;

/// How many bytes of a file are copied at once.
pub const PIECE_SIZE: u64 = 4096;
