//! Finds what is where in a file: blocks of tags, junk, a head, and the frames of the stream; or
//! the first fault in it. `Merge` walks over two lists of such things in order of offset.
#![tactic(auto)]

mod apart;
mod chains;
mod folders;
mod found;
mod fronts;
mod heads;
mod items;
mod laws;
mod looks;
mod merge;
mod places;
mod rows;
mod starts;
mod survey_fault;
mod surveys;

pub use chains::{Region, Step, step_at};
pub use folders::survey;
pub use fronts::pass_front;
pub use heads::{find_head, head_area, head_in, numbered_from};
pub use items::{Item, header_front, header_of_class, is_same_class, item_front};
pub use laws::{
    apart_frames_lead, chains_are_only, heads_apart_are_laid, heads_apart_are_placed,
    lost_frames_lead, near_frames_stay, one_item_stands, starts_are_least, surveys_are_placed,
    surveys_hold_streams,
};
pub use looks::{LONGEST_FILE, find_length, look};
pub use merge::{Entry, HasOffset, Merge};
pub use places::{Head, Piece, PlacedFrame, Start};
pub use rows::{JudgedFrame, ReservoirState, Row};
pub use starts::{anchored_frame, bytes_from, is_anchor};
pub use survey_fault::SurveyFault;
pub use surveys::Survey;
