//! What is prepared before the output is created.
use crate::report::Report;
use cut_edits::LaidWork as LaidWork;
use outside::SendBuffer;

/// What is left of the input, all its frames with their plan, and the memory of the pass; what is
/// missing, and the memory of the text.
#[derive(Drop)]
pub(crate) struct SalvageWork {
    pub laid: LaidWork,
    pub report: Report,
    pub sending: SendBuffer,
}
