//! Laws of commands that keep what is there. Nothing here runs, and no crate of the program waits for these proofs.
#![tactic(auto)]

mod laws;

pub use laws::kept_commands_leave_all;
