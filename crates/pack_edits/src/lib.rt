//! Packing: all frames of a file in the least slots, in slots of some bit rates alone, or in the
//! slots that take the fewest bytes.
#![tactic(auto)]

mod calls;
mod edit;
mod inputs;
mod laws;
mod menu;
mod plans;

pub use calls::pack_with;
pub use edit::PackEdit;
pub use laws::{fewest_bytes, floors_fit, never_longer};
pub use requests::PackMode;
