//! A folder and a sink in memory, any call of which can be made to fail, and a folder whose files
//! become shorter while they are read.

mod buffer;
mod file_rooms;
mod folder;
mod schedule;
mod short;
mod sink;

pub use folder::{Call, MemFolder};
pub use short::ShortFolder;
pub use sink::MemSink;
