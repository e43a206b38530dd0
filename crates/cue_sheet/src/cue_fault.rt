//! Why a cue sheet isn't read.
use thiserror::Error;

/// Why a cue sheet isn't read. Lines are counted from 1.
#[derive(Clone, Copy, Debug, PartialEq, Eq, Error)]
pub enum CueFault {
    /// This line breaks its rule.
    #[error("line {0} is not well-formed")]
    Line(u32),
    /// The start in this line isn't later than the one before it.
    #[error("the start in line {0} is not behind the one before it")]
    NotRising(u32),
    /// No line is at fault, and no track has a start.
    #[error("there are no tracks")]
    NoTracks,
    /// Out of memory.
    #[error("out of memory")]
    Memory,
}
