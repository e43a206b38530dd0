//! Laws of lead-ins, of pieces that are joined again, and of joins without seams. Nothing here runs, and no crate of the program waits for
//! these proofs.
#![tactic(auto)]

mod join_laws;
mod laws;
mod lead_in_laws;
mod splice_laws;

pub use join_laws::{joins_keep_their_ends, left_out_is_empty};
pub use laws::{following_samples, in_steps, split_then_seamless_join};
pub use lead_in_laws::{lead_in_where_wanted, led_where_needed};
pub use splice_laws::{followers_go_on, pieces_are_one_splice};
