//! The table of commands: an entry for each command that can be asked for has the names of its files, what it makes of them, which
//! frames it chooses, and which choices are legal. Only definitions and a law; nothing here runs.
#![tactic(auto)]

mod laws;

pub use laws::files_are_of_commands;
