//! The command that makes a stream from a seed, packs it in memory, and says how long both are: a
//! large input that needs no file. Each frame's main data are drawn from the seed and use the bit
//! reservoir; the same seed gives the same bytes. A frame is written as soon as no later main data
//! can reach it, so memory doesn't grow with the stream.
#![tactic(auto)]

mod calls;
mod draws;
mod fault;
mod folder;
mod frames;
mod laws;
mod making;
mod stream;
mod stream_laws;
mod summary;

pub use calls::drill;
pub use fault::StreamFault;
pub use folder::{FRAME_LENGTH, stream_folder};
pub use laws::{drills_are_packed, drills_have_no_lead_in};
pub use stream::write_stream;
pub use stream_laws::{
    streams_are_long, streams_are_surveyed, streams_hold, streams_need_no_lead_in,
};
pub use summary::{Summary, send_summary};
