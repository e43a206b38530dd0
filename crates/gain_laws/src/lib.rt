//! Laws of fades, and of the commands that change gains: a change can be undone, it changes nothing else, and the least and the greatest
//! gain decide which steps are accepted. Nothing here runs, and no crate of the program waits for these proofs.
#![tactic(auto)]

mod change_laws;
mod curve_laws;
mod fade_laws;
mod laws;
mod steps_laws;
mod tag_laws;

pub use change_laws::{changes_keep_all, gains_take_steps};
pub use curve_laws::{curves_go_evenly, curves_stay_within, opposite_curves};
pub use fade_laws::{fade_gives_back, fade_keeps_all};
pub use laws::{gains_keep_all, opposite_gives_back, undo_gives_back};
pub use steps_laws::steps_are_exact;
pub use tag_laws::{tag_again, tagged_bytes};
