//! Reads what can be read of a damaged file: the frames between gaps, and which of them have their main
//! data.
#![tactic(auto)]

mod begun;
mod damaged;
mod found;
mod gap;
mod later;
mod mended;
mod raw_header;
mod reading;
mod search;
mod usable;

pub use damaged::Damaged;
pub use gap::Gap;
pub use mended::{Emptied, Mended};
pub use reading::read_damaged;
