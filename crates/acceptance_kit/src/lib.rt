//! What the tests of whole commands share: rows in words, and what runs them over a folder and sinks in memory.
#![tactic(auto)]

pub mod scripts;
mod tells;
mod turns;
