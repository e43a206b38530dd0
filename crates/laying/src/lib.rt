//! Writes frames of surveyed files into the slots of a plan with all main data repacked, to cut,
//! split, join and pack; also what the planner is given for these frames, and what a survey of such
//! a file finds.
//!
//! ```text
//! let mut parts = Parts::new(alloc);
//! parts.push(&survey.frames()[from..to])?;
//! let plan = plan(alloc, parts.needs(), parts.places(), &Keep)?;
//! ```
//!
//! The law `parts_fit` says that `slot_plan::plan` may be called; `one_part_fits` says so for one
//! part.
#![tactic(auto)]

mod areas;
mod blocks;
mod buffers;
mod file;
mod info;
mod info_laws;
mod laid_laws;
mod laws;
mod needs_laws;
mod parts;
mod relay;
mod selected;

pub use areas::{AreaSource, read_before};
pub use buffers::RelayBuffers;
pub use info::{Kept, has_all, head_fields, info_bytes, info_for, kept_fields};
pub use info_laws::slots_are_planned;
pub use laid_laws::{laid_frames_stay, laid_stream, laid_survey, surveyed_blocks};
pub use laws::{
    blocks_are_kept, chosen_frames_stay, entries_hold, files_hold, fitting_files_hold,
    fitting_slots, planned_frames_stay, plans_are_of_parts, plans_fit, surveys_can_be_relaid,
};
pub use needs_laws::{one_part_fits, part_fits, parts_fit};
pub use parts::{Parts, append_needs};
pub use relay::Relay;
pub use selected::Selected;
