//! Frames of numbers without a pattern.

use crate::tests::asked::Asked;

/// MPEG-1, 44,100 Hz, 320 kbit/s, stereo, padded, with and without a check word; MPEG-2, 24,000 Hz, 160 kbit/s, mono,
/// padded.
static HEADERS: [[u8; 4]; 3] = [
    [0xff, 0xfb, 0xe2, 0x00],
    [0xff, 0xfa, 0xe2, 0x00],
    [0xff, 0xf3, 0xe6, 0xc0],
];

/// The next number of a sequence without a pattern.
pub fn next(state: &mut u32) -> u32 {
    *state = state.wrapping_mul(1_664_525).wrapping_add(1_013_904_223);
    *state / 65_536
}

/// Four frames with one of these headers, each with fewer bytes than `limit`.
pub fn drawn(state: &mut u32, class: usize, limit: u32) -> [Asked; 4] {
    let header = HEADERS[class % 3];
    let mut frames = [Asked(header, 0); 4];
    for frame in &mut frames {
        let number = next(state) % 65_536;
        frame.1 = number.checked_rem(limit).unwrap_or(0);
    }
    frames
}
