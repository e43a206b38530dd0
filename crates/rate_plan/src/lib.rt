//! Plans from a menu: each frame and the lead-in have one of a few slots, such as the slots of one
//! bit rate, or all slots from one on.
#![tactic(auto)]

mod fault;
mod largest;
mod laws;
mod menu;
mod planning;
mod unfit;

pub use fault::RateFault;
pub use laws::{largest_slot_fits, least_menu_plan_is_the_plan, slices_are_menus};
pub use planning::rate_plan;
