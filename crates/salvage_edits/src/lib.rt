//! What is left of a damaged file, repacked, and a text that says what is missing.
#![tactic(auto)]

mod lines;
mod prepared;
mod report;
mod salvage_file;
mod work;

pub use salvage_file::salvage;
