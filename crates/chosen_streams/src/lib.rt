//! Which frames each job chooses, and the laws that the streams of its outputs are exactly these: each part of an output is at most one
//! silent lead-in and then the chosen frames, as they are in the streams of the inputs. Nothing here runs.
#![tactic(auto)]

mod laws;

pub use laws::{
    chosen_plans_are_first, chosen_streams_are_exact, joined_plans_are_first,
    joined_streams_are_exact, outputs_are_named, packed_streams_are_exact,
    planned_streams_are_exact, salvaged_frames_are_left, salvaged_plans_are_first,
    salvaged_streams_are_exact, seamless_plans_are_first, streams_are_chosen,
};
