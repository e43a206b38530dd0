//! The split commands: one MP3 file becomes several, cut at positions or at samples.
#![tactic(auto)]

mod cut;
mod exact_points;
mod piece;
mod points;
mod sheet;
mod source;
mod split_file;
mod writing;

pub use exact_points::ExactPoints;
pub use points::Points;
pub use split_file::{split, split_exact};
