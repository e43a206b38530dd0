//! Lays main data into the areas of frames, and writes the frames to a file: each frame's main data
//! go where its main_data_begin says, into its own area and the areas before it. Only the `new`
//! functions take memory. `Writer` writes to the file. It is built on `FrameQueue`, which forwards
//! frames to a buffer before the file, where they may be between other bytes.
//!
//! ```text
//! let mut writer = Writer::new(alloc, header.class())?;
//! writer.frame(&header, &side, &payload, &mut folder, name)?;
//! writer.finish(&mut folder, name)?;
//! ```
#![tactic(auto)]

mod areas;
mod bytes;
mod frames;
mod laws;
mod queue;
mod writer;

pub use areas::Areas;
pub use frames::Frame;
pub use laws::{few_frames_wait, laid_steps};
pub use queue::FrameQueue;
pub use writer::{State, Writer};
