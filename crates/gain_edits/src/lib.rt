//! The commands that change gains: `gain`, `undo`, and `fade`, which moves each frame's gains by
//! the steps that a sheet gives for its number.
#![tactic(auto)]

mod calls;
mod changes;
mod channels;
mod edit;
mod fade_calls;
mod fade_change;
mod fade_edit;
mod gain_change;
mod gain_range;
mod undo_change;
mod undo_item;
mod work;

pub use calls::{gain, undo};
pub use changes::Changes;
pub use edit::GainEdit;
pub use fade_calls::fade;
pub use fade_edit::FadeEdit;
pub use gain_range::range_fault;
pub use work::GainWork;
