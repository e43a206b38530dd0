//! Changes of gains.

pub mod failing_calls;
pub mod files;
pub mod frames;
pub mod notes;
pub mod refusals;
