//! The shortest packing: of all lists of slots that have a layout, the one with the fewest bytes.
#![tactic(auto)]

mod bounded_slope;
mod choice;
mod laws;
mod rows;
mod shortest;
mod table;
mod unit_slope;
mod walk;

pub use laws::{best_exists, best_is_shortest, best_plan_is_cheapest};
pub use shortest::best;
