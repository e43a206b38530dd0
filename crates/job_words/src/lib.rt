//! The words that the program takes, and what they ask for.
#![tactic(auto)]

mod flags;
mod forms;
mod jobs;
mod kinds;
mod words;

pub use jobs::Job;
pub use words::{job, keeps};
