//! Joining inputs into one file of all their frames.
#![tactic(auto)]

mod join_file;
mod planned;

pub use join_file::join;
