//! Blocks of tags beside the frames of a file: where an ID3v2, ID3v1 or APEv2 block begins and how long it
//! is, and APEv2 tags with the undo item, in which changes of gain are recorded. The calls in their order:
//! `block_at(front)` recognizes a block by its first 32 bytes; `Tag::read(alloc, block)` returns the tag
//! that an APEv2 block is, and `tag.undo()` what its undo item says; `tag.set_undo(&undo)` or
//! `tag.drop_undo()` changes that item alone, and `tag.write(alloc)` returns the block again. `Undo::read`
//! and `Undo::text` read and write the value of that item.
#![tactic(auto)]

mod block;
mod ends;
mod item;
mod items;
mod laws;
mod tag;
mod tag_fault;
mod undo;

pub use block::{Block, Kind, LONGEST_TAG, block_at};
pub use laws::{
    items_are_all, tags_are_their_bytes, undo_items_alone_change, undos_are_their_texts,
};
pub use tag::Tag;
pub use tag_fault::TagFault;
pub use undo::{Undo, UndoItem};
