//! Decides in which slots frames are written and where their main data begin: layouts of main data,
//! and the lexicographically least list of slots that has one.
#![tactic(auto)]

mod ascending;
mod free_bytes;
mod laws;
mod lengths;
mod needs;
mod offer;
mod placing;
mod plans;
mod policy;
mod reserves;
mod slots;
mod table;

pub use ascending::largest_area_of;
pub use free_bytes::{joins, lead_in, leaves, wants};
pub use laws::{
    fits_behind_what_is_left, fits_where_wanted, lead_ins_come_first, least_plan_is_the_plan,
    leaves_go_on, led_plan_is_least, plans_are_unique,
};
pub use lengths::Lengths;
pub use needs::{Need, Placed, Plan};
pub use offer::Offer;
pub use placing::{Room, place_part};
pub use plans::{end_of, plan, plan_led};
pub use policy::{Keep, Least, Policy};
pub use slots::free_behind;
pub use table::SlotTable;
