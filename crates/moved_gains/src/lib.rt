//! Moves gains by steps of 1.5 dB, in one frame or in a whole file. The file is read once from
//! beginning to end and written with moved gains, each frame by its own steps, and with another tag
//! if that changes. What is written is a well-formed file with the same stream except for the
//! gains. The crate also finds and reads the tag of a file, its first APEv2 block, and defines the
//! file with another tag instead.
#![tactic(auto)]

mod buffers;
mod change;
mod course;
mod front;
mod gain_extremes;
mod gains;
mod moving;
mod tag_extents;
mod tag_fault;
mod tag_laws;
mod tag_reading;

pub use buffers::GainBuffers;
pub use change::Change;
pub use course::Course;
pub use gain_extremes::{Gains, gains_in, gains_of, joined};
pub use gains::{OutOfRange, first_out_of_range};
pub use moving::write_changed;
pub use tag_extents::{TagExtent, first_tag, tag_extent};
pub use tag_fault::FileTagFault;
pub use tag_laws::{own_tag, retagged_survey, same_stream};
pub use tag_reading::read_tag;
