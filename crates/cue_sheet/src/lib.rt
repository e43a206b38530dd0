//! Positions in a stream, as users write them, and the cue sheets that say where tracks start.
//! `Place::read(word)` is the position that a word says, and `Cue::read(alloc, bytes)?.starts()` are the
//! starts in a sheet; `place.frame_of(class, frames)` is the number of the frame that a position is
//! before. The functions that split a sheet into lines and words, and read numbers in them, are for other
//! sheets too.
#![tactic(auto)]

mod cue;
mod cue_fault;
pub mod digits;
mod entry;
mod place;
mod sheet_state;
pub mod words;

pub use cue::Cue;
pub use cue_fault::CueFault;
pub use place::Place;
