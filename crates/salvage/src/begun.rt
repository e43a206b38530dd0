//! Where a damaged file begins.

use sync_survey::{Head, Start};

/// What is known of a file before its frames are judged: its length in bytes, its first frame, and its
/// head.
#[derive(Clone, Copy)]
pub(crate) struct Begun {
    pub(crate) size: u64,
    pub(crate) start: Start,
    pub(crate) head: Option<Head>,
}
