//! Small files for the tests of other crates, as frames and stretches of bytes; and real files whose reads and writes go wrong.
#![tactic(auto)]

pub mod files;
pub mod frames;
pub mod named;
pub mod shaky;
pub mod tables;
pub mod texts;
