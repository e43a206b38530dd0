//! What is prepared before the output of a join is created.
use arrayvec::ArrayVec;
use laying::RelayBuffers;
use slot_plan::Plan;

/// The plan of all frames; the bytes of the Info frame before them, at most 1,441, with the header
/// of the first frame; and the memory of the second pass.
#[derive(Drop)]
pub struct JoinWork {
    pub plan: Plan,
    pub info: ArrayVec<u8, 1441>,
    pub buffers: RelayBuffers,
}
