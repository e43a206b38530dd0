//! Why a stream wasn't written.
use thiserror::Error;

/// Why a stream wasn't written.
#[derive(Clone, Copy, Debug, PartialEq, Eq, Error)]
pub enum StreamFault {
    /// Memory ran out.
    #[error("out of memory")]
    Memory,
    /// The file could not be created or written.
    #[error("write fault")]
    Write,
}
