//! The commands: they make new files from the files of a folder, or are refused.
//!
//! Each takes the allocator, a folder and names in it. A refused command returns an `EditFault` that says why, and its
//! contract says what the files hold then, and what they hold if the command succeeded. This crate only gathers them:
//!
//! | call | crate | what it does |
//! |---|---|---|
//! | `list` | `list_edits` | sends what a file holds, a line for each block, junk, head and frame, to a sink |
//! | `info` | `list_edits` | sends what a file is, in a few lines, to a sink |
//! | `gain`, `undo`, `fade` | `gain_edits` | moves the gains of a file; undoes the changes that the file's tag lists; moves them by a curve over its frames |
//! | `cut`, `pack` | `cut_edits` | repacks the frames between two positions, or all frames, into one file |
//! | `cut_exact` | `cut_edits` | repacks the frames that a decoder needs for some samples, with a head by which players play exactly these samples |
//! | `pack_with` | `pack_edits` | packs in a mode: with the least slots, one bit rate alone, bit rates from one on, or the fewest bytes |
//! | `split` | `split_edits` | repacks the frames between positions, into a file for each piece |
//! | `join` | `join_edits` | repacks the frames of several files into one |
//! | `join_seamless` | `seamless_edits` | joins files without the frames that only a piece needs, and sends which were left out to a sink |
//! | `remove` | `remove_edits` | repacks the frames of a file outside of some stretches into one file |
//! | `salvage` | `salvage_edits` | repacks what can be read of a damaged file, and sends what is missing to a sink |
//!
//! What they share, the faults and the one body of the calls that make one file, is in `commands`.

pub use commands::{EditFault, MOST_FRAMES, Refusal};
pub use cut_edits::{cut, cut_exact, pack};
pub use gain_edits::{fade, gain, undo};
pub use gain_laws::{
    fade_gives_back, fade_keeps_all, gains_keep_all, opposite_gives_back, steps_are_exact,
    undo_gives_back,
};
pub use join_edits::join;
pub use list_edits::{info, list};
pub use moved_gains::{Gains, OutOfRange, gains_of};
pub use pack_edits::{PackMode, fewest_bytes, floors_fit, never_longer, pack_with};
pub use remove_edits::remove;
pub use requests::{Channels, Shift, Steps};
pub use salvage_edits::salvage;
pub use seamless_edits::join_seamless;
pub use split_edits::{ExactPoints, Points, split, split_exact};
