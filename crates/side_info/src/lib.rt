//! The side information of Layer III frames, read and written bit for bit.
#![tactic(auto)]

mod crc;
mod fitting;
mod frame;
mod frame_front;
mod front;
mod gains;
mod granule;
mod reading;
mod side;
mod widths;
mod writing;

pub use crc::{check_word, check_word_of_bytes};
pub use frame::stored_crc;
pub use frame_front::{Extent, FrameFront};
pub use gains::put_gains;
pub use granule::{Granule, NO_GRANULE};
pub use side::Side;
