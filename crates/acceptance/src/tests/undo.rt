//! Changes of gains that are undone: `gain -u`.

pub mod changes;
pub mod failing_calls;
pub mod faulty_tags;
pub mod files;
pub mod refusals;
