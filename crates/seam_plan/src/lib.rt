//! Which frames are left out when files are joined without seams. An input that follows the one
//! before it shares frames with it, and a lead-in is of no use if there are main data before its
//! frames. Besides, which parts of one file stay when stretches are taken out, and how they are one
//! splice.
#![tactic(auto)]

mod adding;
mod input;
mod lead_ins;
mod parts;
mod seam;
mod splice;
mod stretches;

pub use adding::in_slot;
pub use input::Input;
pub use lead_ins::{front_left_out, is_same_header};
pub use parts::{PartJoint, PartSplice};
pub use seam::Seam;
pub use splice::{FramePlace, Joint, Run};
pub use stretches::{Part, parts_that_stay};
