//! What can be requested, as the words of the command line say it and as the commands take it: how
//! a file is packed, the change of its volume, and the names of the pieces of a split, each a
//! prefix, the two decimal digits of the piece's number, counted from 1, and `.mp3`.
#![tactic(auto)]

mod mode;
mod names;
mod shift;

pub use mode::PackMode;
pub use names::{is_piece_name, name_parts, piece_name};
pub use shift::{Channels, Shift, Steps};
