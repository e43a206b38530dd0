//! Laws of exact pieces, and of exact pieces that are joined again. Nothing here runs, and no crate of the program waits for these proofs.
#![tactic(auto)]

mod laws;
mod piece_laws;
mod sample_laws;
mod span_laws;

pub use laws::{exact_in_steps, exact_split_then_seamless_join};
pub use piece_laws::{exact_pieces_play_as_read, exact_plans_are_first};
pub use sample_laws::{pieces_are_the_recording, pieces_play_their_samples};
pub use span_laws::spans_are_one_splice;
