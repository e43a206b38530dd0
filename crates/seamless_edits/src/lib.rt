//! Joining inputs without seams: which frames of each are left out, and what is said of it.
#![tactic(auto)]

mod apart;
mod beginnings;
mod decided;
mod lines;
mod main_data;
mod numbers;
mod planned;
mod seamless_file;
mod sounds;

pub use seamless_file::join_seamless;
