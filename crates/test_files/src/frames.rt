//! Frames as bytes, each worked out by hand from the standard's tables. Check words are those that the
//! program mp3check finds right.
ghost use Rattle.std.specs.Prelude.{◌≤◌};

use crate::frame;
use std::alloc::{AllocError, Global};

/// A frame: its header, its check word where it has one, what is after them, and its length in
/// bytes. The rest is zeros.
#[derive(Clone, Copy)]
pub struct Frame {
    pub header: [u8; 4],
    pub word: Option<u16>,
    pub side: &'static [u8],
    pub area: &'static [u8],
    pub length: usize,
}

/// MPEG-1, 44,100 Hz, 128 kbit/s, stereo, without check word and padding.
const PLAIN: [u8; 4] = [0xff, 0xfb, 0x90, 0x00];

/// MPEG-1, 44,100 Hz, 128 kbit/s, stereo, with a check word and without padding.
const PROTECTED: [u8; 4] = [0xff, 0xfa, 0x90, 0x00];

const AREA: [u8; 4] = [0x11, 0x22, 0x33, 0x44];

/// All bytes after the header are 0, so its granules are silent.
pub const Z: Frame = frame! { header: PLAIN, word: None, side: &[], area: &[], length: 417 };

/// Each channel of each granule has 8 bits; the gains are 100, 101, 255, 90.
pub const G: Frame = Frame {
    header: PLAIN,
    word: None,
    side: b"\0\0\0\x08\0\x32\0\0\0\0\x01\0\x06\x50\0\0\0\0\x20\x01\xfe\0\0\0\0\x04\0\x16\x80",
    area: &AREA,
    length: 417,
};

/// G with the gains 95, 96, 250, 85.
pub const G_LOWER: Frame =
    frame! { side: b"\0\0\0\x08\0\x2f\x80\0\0\0\x01\0\x06\0\0\0\0\0\x20\x01\xf4\0\0\0\0\x04\0\x15\x40", ..G };

/// Padded. The granules' channels have 8, 16, 24 and 32 bits and the gains 5, 6, 7, 8; every other bit of
/// the side information but main_data_begin is 1.
pub const PADDED: Frame = Frame {
    header: [0xff, 0xfb, 0x92, 0x00],
    side: b"\0\x7f\xf0\x08\xff\x82\xff\xff\xff\xfe\x02\x1f\xf0\x6f\xff\xff\xff\xc0\x63\xfe\x0f\xff\xff\xff\xf8\x10\x7f\xc2\x3f\xff\xff\xff",
    length: 418,
    ..G
};

/// Four times 762 bits, which fill the area of 381 bytes, and one more; all gains are 100.
pub const OVERFULL: Frame =
    frame! { side: b"\0\0\x02\xfa\0\x32\0\0\0\0\x5f\x40\x06\x40\0\0\0\x0b\xe8\0\xc8\0\0\0\x01\x7d\x80\x19", ..G };

/// Z with the text of a head.
pub const HEAD: Frame = Frame { area: b"Info", ..Z };

/// G with a wrong check word, and with the text of a head after the side information.
pub const PROTECTED_HEAD: Frame =
    frame! { header: PROTECTED, word: Some(0x0000), area: b"Info", ..G };

/// G with a wrong check word, and with the text where a frame without a check word has it. Its first two
/// bytes are the last two of the side information.
pub const EARLY_HEAD: Frame = Frame {
    header: PROTECTED,
    word: Some(0x0000),
    side: b"\0\0\0\x08\0\x32\0\0\0\0\x01\0\x06\x50\0\0\0\0\x20\x01\xfe\0\0\0\0\x04\0\x16\x80\0\x58\x69",
    area: b"ng",
    length: 417,
};

/// Z with a check word.
pub const PROTECTED_Z: Frame = frame! { header: PROTECTED, word: Some(0xc05c), ..Z };

/// G with a check word.
pub const PROTECTED_G: Frame = frame! { header: PROTECTED, word: Some(0x11a2), ..G };

/// G with a check word and the gains 95, 96, 250, 85.
pub const PROTECTED_G_LOWER: Frame = frame! { header: PROTECTED, word: Some(0x9476), ..G_LOWER };

/// The frames end to end.
pub fn file_of(alloc: Global, frames: &[Frame]) -> Result<Vec<u8>, AllocError> {
    let mut bytes = Vec::new(alloc);
    for frame in frames {
        bytes.extend_from_slice(&bytes_of(alloc, frame)?)?;
    }
    Ok(bytes)
}

fn side_size(header: [u8; 4]) -> usize
    ensures { result ≤ 32 }
{
    match (header[1] & 8 != 0, header[3] == 0xc0) {
        (true, false) => 32,
        (true, true) | (false, false) => 17,
        (false, true) => 9,
    }
}

fn bytes_of(alloc: Global, frame: &Frame) -> Result<Vec<u8>, AllocError> {
    let mut bytes = Vec::new(alloc);
    bytes.extend_from_slice(&frame.header)?;
    if let Some(word) = frame.word {
        bytes.extend_from_slice(&word.to_be_bytes())?;
    }
    let side_end = bytes.len() + side_size(frame.header);
    bytes.extend_from_slice(frame.side)?;
    bytes.resize(side_end, 0)?;
    bytes.extend_from_slice(frame.area)?;
    bytes.resize(frame.length, 0)?;
    Ok(bytes)
}
