//! Why a sheet isn't read.
use thiserror::Error;

/// Why a sheet isn't read. Lines are counted from 1.
#[derive(Clone, Copy, Debug, PartialEq, Eq, Error)]
pub enum EnvelopeFault {
    /// This line is neither skipped nor a point, or is one point too many.
    #[error("line {0} is not well-formed")]
    Line(u32),
    /// No line is at fault, and there is no point.
    #[error("there are no points")]
    NoPoints,
    /// Out of memory.
    #[error("out of memory")]
    Memory,
}
