//! The commands that repack chosen frames of a file into another: `cut`, `cut_exact` and `pack`.
#![tactic(auto)]

mod apart;
mod calls;
mod choice;
mod chosen;
mod edit;
mod exact_edit;
mod heads;
mod pieces;
mod plans;
mod spans;
mod work;

pub use apart::set_apart;
pub use calls::{cut, cut_exact, pack};
pub use choice::{FrameChoice, all_choice, cut_choice};
pub use chosen::{Chosen, choose};
pub use edit::FrameEdit;
pub use heads::read_head;
pub use pieces::{quality_of, sealed_info_bytes, select_piece};
pub use plans::{chosen_parts, plan_file};
pub use spans::find_span;
pub use work::LaidWork;
