//! Stretches of files that several tests use.

use test_files::files::Stretch;
use test_files::files::Stretch::{Bytes, Fill, Filled, Frames};
use test_files::frames;

/// A file, and what is found in it.
pub struct Case<A> {
    pub name: &'static str,
    pub file: &'static [Stretch],
    pub answer: A,
}

/// The header of a frame of 417 bytes: MPEG-1, 44,100 Hz, 128 kbit/s, stereo, without check word.
pub const HEADER: Stretch = Bytes(&[0xff, 0xfb, 0x90, 0x00]);

/// What is after that header in a silent frame.
pub const SILENCE: Stretch = Fill(0, 413);

/// A silent frame.
pub const Z: Stretch = Stretch::Frame(0, 0);

/// A head: a silent frame with its text.
pub const HEAD: Stretch = Frames(&[frames::HEAD]);

/// MPEG-2, 24,000 Hz, 8 kbit/s, one channel: 24 bytes, with an area of 11. Silent.
pub const SHORT: Stretch = Filled(b"\xff\xf3\x14\xc0", 0, 20);

/// The same frame with 8 bits.
pub const SHORT_LOUD: Stretch = Filled(b"\xff\xf3\x14\xc0\0\0\x40", 0, 17);

/// The same frame with main_data_begin 33 and 352 bits, which fill four areas.
pub const SHORT_OF_FOUR: Stretch = Filled(b"\xff\xf3\x14\xc0\x21\x0b", 0, 18);

/// The header of such a frame at 48,000 Hz, where it has 384 bytes.
pub const OTHER_CLASS: Stretch = Bytes(&[0xff, 0xfb, 0x94, 0x00]);
