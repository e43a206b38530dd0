//! Laws of files without some stretches of their frames. Nothing here runs, and no crate of the program waits for these proofs.
#![tactic(auto)]

mod cut_laws;
mod join_laws;
mod number_laws;
mod piece_laws;
mod play_laws;
mod slot_laws;
mod stretch_laws;

pub use cut_laws::remove_to_the_end_is_cut;
pub use join_laws::{parts_join_as_removed, remove_is_join};
pub use number_laws::{heard_goes_on, heard_is_first_to_last, numbers_are_kept};
pub use piece_laws::pieces_join_as_parts;
pub use play_laws::{heard_is_played, nothing_else_is_played, what_is_left_is_played};
pub use slot_laws::frames_keep_their_slots;
pub use stretch_laws::{frames_in_no_stretch_stay, touching_stretches_are_one};
