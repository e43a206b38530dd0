//! The inputs of a join: their surveys, and the second pass over them, which writes its output.
#![tactic(auto)]

mod inputs;
mod laid;
mod planned;
mod ranges;
mod stopped;
mod surveys;
mod work;
mod written;

pub use inputs::{JoinInput, input_at};
pub use laid::lay_all;
pub use planned::{plan_splice, splice_info_bytes};
pub use ranges::{LaidRange, LaidRanges};
pub use stopped::Stopped;
pub use surveys::survey_all;
pub use work::JoinWork;
pub use written::write_joined;
