//! What the tests ask for.

use frame_header::Header;
use slot_plan::Need;
use std::alloc::{AllocError, Global};

/// MPEG-1, 44,100 Hz, 128 kbit/s, stereo: 417 bytes, area 381.
pub const STEREO: [u8; 4] = [0xff, 0xfb, 0x90, 0x00];
/// The same frame with a check word: area 379.
pub const PROTECTED: [u8; 4] = [0xff, 0xfa, 0x90, 0x00];
/// MPEG-1, 44,100 Hz, 320 kbit/s, stereo, padded: 1,045 bytes, area 1,009.
pub const LARGE: [u8; 4] = [0xff, 0xfb, 0xe2, 0x00];
/// MPEG-2, 24,000 Hz, 8 kbit/s, mono: 24 bytes, area 11.
pub const LOW: [u8; 4] = [0xff, 0xf3, 0x14, 0xc0];
/// The same frame at 160 kbit/s, padded: 481 bytes, area 468.
pub const HIGH: [u8; 4] = [0xff, 0xf3, 0xe6, 0xc0];

/// A frame's header, and how many bytes its main data have.
#[derive(Clone, Copy)]
pub struct Asked(pub [u8; 4], pub u32);

/// What these frames need; empty where a header can't be read.
pub fn needs_of(alloc: Global, frames: &[Asked]) -> Result<Vec<Need>, AllocError> {
    let mut needs = Vec::with_capacity(alloc, frames.len())?;
    for frame in frames {
        let Ok(header) = Header::read(frame.0) else {
            return Ok(Vec::new(alloc));
        };
        needs.push(Need {
            header,
            bytes: frame.1,
        })?;
    }
    Ok(needs)
}
