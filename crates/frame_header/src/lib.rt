//! Headers of Layer III frames, and the lengths that follow from them.
#![tactic(auto)]

mod class;
mod header;
mod limits;
mod slot;
mod version;

pub use class::Class;
pub use header::{Header, NotHeader};
pub use limits::MOST_FRAMES;
pub use slot::Slot;
pub use version::Version;
