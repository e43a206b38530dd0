//! What a program holds that edits files in memory: a folder of files, the words of a command, and what the last command sent.
#![tactic(auto)]

mod folder;
mod held;
mod sink;

pub use folder::GrowingFolder;
pub use held::Session;
pub use sink::GrowingSink;
