//! The outside of a program: a folder of files and a sink of bytes, as traits with contracts, both
//! in memory for tests, and buffers for them. `on_disk` implements both over real files and
//! streams.
#![tactic(auto)]

mod exact;
mod feed;
mod folder;
mod helpers;
mod in_place;
mod kept_folder;
mod memory;
mod occurrences;
mod pass;
mod send_buffer;
mod sink;
mod sizes;
mod tally;
mod waiting;
mod write_buffer;

pub use exact::{ReadFault, read_exact};
pub use feed::{Feed, keep_from};
pub use folder::{Failed, FindFault, Folder};
pub use helpers::{read_full, send_all, write_all};
pub use in_place::InPlace;
pub use kept_folder::KeptFolder;
pub use memory::{Call, MemFolder, MemSink, ShortFolder};
pub use pass::{Pass, PassFault};
pub use send_buffer::SendBuffer;
pub use sink::Sink;
pub use sizes::{BUFFER_SIZE, PIECE_SIZE};
pub use tally::Tally;
pub use write_buffer::WriteBuffer;
