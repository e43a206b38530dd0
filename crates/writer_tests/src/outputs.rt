//! A file without bytes, and what is in it afterwards.
//!
//! A test owns its folder and ends in one place, and everything else borrows it: at each end of its owner the folder is
//! dropped, which costs the check much.

use outside::MemFolder;
use std::alloc::AllocError;

/// Puts a file without bytes, with `room` bytes of room.
pub fn put_empty(folder: &mut MemFolder, name: &str, room: u64) -> Result<(), AllocError> {
    folder.put(name, &[])?;
    folder.reserve(name, room)
}

/// Whether these bytes are at these places.
pub fn are_at(bytes: &[u8], places: &[usize], wanted: &[u8]) -> bool {
    places.len() == wanted.len()
        && places
            .iter()
            .zip(wanted)
            .all(|(place, byte)| bytes.get(*place) == Some(byte))
}
