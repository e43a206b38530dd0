//! What all commands share: what a command is, why it is refused and what it leaves, the survey of
//! an input, the bytes of a sheet, and the common body of the commands that make one file.
#![tactic(auto)]

mod asking;
mod edit;
mod fault;
mod inputs;
mod output;
mod sheet;
mod surveys;

pub use asking::ask_all;
pub use edit::{Edit, make_one};
pub use fault::{EditFault, Refusal};
pub use frame_header::MOST_FRAMES;
pub use inputs::{Inputs, OutputNames, clash};
pub use output::{OutputPass, write_output};
pub use sheet::{SHEET, sheet_bytes};
pub use surveys::survey_at;
pub use sync_survey::LONGEST_FILE;
pub use tag_blocks::LONGEST_TAG;
