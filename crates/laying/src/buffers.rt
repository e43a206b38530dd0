//! All memory of a pass that repacks frames.
ghost use Rattle.std.specs.Prelude.{IfOk};
ghost use Rattle.laying.specs.Passing.{IsRelayFresh};

use frame_header::Class;
use frame_writer::FrameQueue;
use outside::{Feed, WriteBuffer};
use reservoir::Window;
use std::alloc::{AllocError, Global};

/// All memory of a pass that repacks frames: the bytes read from the input, the areas in reach, the
/// frames that wait, and the bytes that wait for the output. It is taken before the first output is
/// created, and serves all outputs.
#[derive(Drop)]
pub struct RelayBuffers {
    pub feed: Feed,
    pub window: Window,
    pub writer: FrameQueue,
    pub waiting: WriteBuffer,
}

impl RelayBuffers {
    /// Empty buffers for frames of this class. They take all their memory here.
    ///
    /// # Errors
    /// If memory runs out.
    pub fn new(alloc: Global, class: Class) -> Result<RelayBuffers, AllocError>
        ensures { IfOk result (IsRelayFresh class) }
    {
        Ok(RelayBuffers {
            feed: Feed::new(alloc)?,
            waiting: WriteBuffer::new(alloc)?,
            window: Window::new(alloc)?,
            writer: FrameQueue::new(alloc, class)?,
        })
    }
}
