//! A folder of real files, and a sink over a real stream.
#![tactic(auto)]

mod disk;
mod noted;
mod reading;
mod stream;
mod system;
mod touched;
mod writing;

pub use disk::DiskFolder;
pub use stream::StdSink;
