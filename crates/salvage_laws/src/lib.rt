//! Laws of what is read of a damaged file. Nothing here runs, and no crate of the program waits for these proofs.
#![tactic(auto)]

mod laws;

pub use laws::{salvage_keeps_streams, salvage_tells_streams};
