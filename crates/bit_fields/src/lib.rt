//! The bits of a byte slice, read in order as numbers and written in place.
#![tactic(auto)]

mod groups;
mod reader;
mod words;
mod writer;

pub use groups::number_at;
pub use reader::Bits;
pub use words::{set_low_byte, set_word, spanned};
pub use writer::{put, put_byte};
