//! Laws of whole files: each file that a command writes has an Info frame that counts its frames, and loses none of them; and what is found
//! in a file that was cut short. Nothing here runs, and no crate of the program waits for these proofs.
#![tactic(auto)]

mod cut_laws;
mod written_laws;

pub use cut_laws::prefix_fault;
pub use written_laws::{written_files_are_counted, written_frames_stay};
