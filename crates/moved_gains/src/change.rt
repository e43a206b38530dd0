//! What a command changes in a file.

use crate::course::Course;

/// What a command changes in a file.
#[derive(Drop)]
pub struct Change {
    /// By how many steps the gains of each frame move.
    pub course: Course,
    /// The bytes of the new tag, if the tag changes; no bytes remove it.
    pub tag: Option<Vec<u8>>,
}
