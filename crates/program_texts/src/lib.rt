//! The texts and lines that the program writes, the names in them, and the statuses that it ends with.
#![tactic(auto)]

mod output_names;
mod parts;
mod texts;

pub use output_names::Outputs;
pub use texts::{say_help, say_version, send_bad_word, send_fault, status};
