//! Exact pieces: which frames a decoder needs for the samples from one to before another, and the
//! delay and the padding with which players play exactly these. `Played::of(info, class, frames)`
//! is the range of positions of a file that are played, `ExactPlace::read(word)` reads a place
//! among its samples, and `Span::of(class, p, q)` is the span of a range of positions. `extension`
//! makes the 36 bytes of the Info head that contain delay and padding, and `seal` puts music length
//! and tag CRC into the whole Info frame. `heard(played, class, written)` says which of the played
//! positions are heard where only some frames of the file are written, and `Heard::numbers` with
//! which delay and padding.
#![tactic(auto)]

mod crc;
mod exact_place;
mod extensions;
mod hearing;
mod laws;
mod overlap;
mod played;
mod sealing;
mod span;
mod times;
mod written;

pub use crc::arc;
pub use exact_place::ExactPlace;
pub use extensions::{HeadCounts, counts_of, extension};
pub use hearing::heard;
pub use laws::{
    extensions_say_their_numbers, pieces_are_the_whole, samples_keep_their_places,
    sealed_frames_are_info_frames, spans_are_warm, spans_fit, words_go_on,
};
pub use overlap::{Overlap, shared};
pub use played::Played;
pub use sealing::seal;
pub use span::Span;
pub use written::{Heard, WrittenFrames};
