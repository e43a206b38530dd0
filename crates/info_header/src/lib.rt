//! Xing and Info heads: a first frame that has counts and a seek table of the file instead of main data.
//! `head_text` recognizes a head by its text, and `Info::read` reads the fields after the text.
//! `info_over` makes the fields for the frames of another file, and `write_info` the frame that holds them
//! and comes before the first of these.
//!
//! ```text
//! let at = head_text(&header, frame)?;
//! let old = Info::read(&frame[at as usize..]);
//! let new = Info { quality: old.quality, extension: old.extension, ..info_over(first.class(), &slots) };
//! write_info(&first, &new, &mut bytes);
//! ```
#![tactic(auto)]

mod fields;
mod file_info;
mod text;
mod writing;

pub use fields::{Info, entry};
pub use file_info::{InSlot, info_over};
pub use text::head_text;
pub use writing::{info_slot, write_info};
