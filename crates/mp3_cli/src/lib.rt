//! The program except its `main`.
#![tactic(auto)]

mod jobs;
mod laws;
mod program;

pub use job_words::{Job, job};
pub use laws::legal_is_accepted;
pub use program::run;
pub use program_texts::{Outputs, send_bad_word, send_fault, status};
