//! Whole files as stretches.

use crate::frames::{Frame, file_of};
use std::alloc::{AllocError, Global};

/// A stretch of a file.
#[derive(Drop)]
pub enum Stretch {
    /// These frames end to end.
    Frames(&'static [Frame]),
    /// These frames end to end, this many times.
    Repeated(&'static [Frame], usize),
    /// These bytes.
    Bytes(&'static [u8]),
    /// One byte, this many times.
    Fill(u8, usize),
    /// These bytes, and then one byte this many times.
    Filled(&'static [u8], u8, usize),
    /// A frame of 417 bytes, the last 381 of them for main data: MPEG-1, 44,100 Hz, 128 kbit/s, stereo, without check word.
    /// Its main_data_begin in bytes, and how many bits its first granule's first channel has; every other field is 0.
    Frame(u16, u16),
}

/// An ID3v2 block of 40 bytes: the flag of a footer, and size 20.
pub const ID3V2_BLOCK: Stretch = Stretch::Filled(b"ID3\x04\0\x10\0\0\0\x14", 0x11, 30);

/// An ID3v1 block of 128 bytes.
pub const ID3V1_BLOCK: Stretch = Stretch::Filled(b"TAG", 0x20, 125);

/// The header and the side information of an Info frame of MPEG-1, 44,100 Hz, 64 kbit/s, stereo: 36 of its 208 bytes.
pub const INFO_FRONT: Stretch = Stretch::Filled(&[0xff, 0xfb, 0x50, 0x00], 0, 32);

/// The header and the side information of a frame of 128 kbit/s and 417 bytes, with 300 bytes of main
/// data from its own area on.
pub const OF_300: Stretch = Stretch::Filled(
    &[0xff, 0xfb, 0x90, 0x00, 0x00, 0x00, 0x09, 0x60],
    0,
    28,
);

/// The header and the side information of such a frame with 400 bytes of main data, which begin 81
/// bytes before its area.
pub const OF_400: Stretch = Stretch::Filled(
    &[0xff, 0xfb, 0x90, 0x00, 0x28, 0x80, 0x0c, 0x80],
    0,
    28,
);

/// Two such frames, with areas of 381 bytes: the first 81 bytes of the second frame's main data are in the first frame's
/// area, after its own main data.
pub const TWO: &[Stretch] = &[
    OF_300,
    Stretch::Fill(0x11, 300),
    Stretch::Fill(0x22, 81),
    OF_400,
    Stretch::Fill(0x22, 381),
];

/// The first 10 bytes of an ID3v2 block of 40: the flag of a footer, and size 20.
pub const ID3V2: Stretch = Stretch::Bytes(&[b'I', b'D', b'3', 4, 0, 0x10, 0, 0, 0, 20]);

/// The other 30 bytes of that block.
pub const ID3V2_REST: Stretch = Stretch::Fill(0x11, 30);

/// An APEv2 block of 79 bytes with the item `Title`, `x`.
pub const APE: Stretch = Stretch::Bytes(
    b"APETAGEX\xd0\x07\0\0\x2f\0\0\0\x01\0\0\0\0\0\0\xa0\0\0\0\0\0\0\0\0\x01\0\0\0\0\0\0\0Title\0xAPETAGEX\xd0\x07\0\0\x2f\0\0\0\x01\0\0\0\0\0\0\x80\0\0\0\0\0\0\0\0",
);

/// The first 3 bytes of an ID3v1 block of 128.
pub const ID3V1: Stretch = Stretch::Bytes(b"TAG");

/// The other 125 bytes of that block.
pub const ID3V1_REST: Stretch = Stretch::Fill(0x20, 125);

fn push_fill(file: &mut Vec<u8>, byte: u8, count: usize) -> Result<(), AllocError> {
    for _ in 0..count {
        file.push(byte)?;
    }
    Ok(())
}

fn push_filled(file: &mut Vec<u8>, front: &[u8], byte: u8, count: usize) -> Result<(), AllocError> {
    file.extend_from_slice(front)?;
    push_fill(file, byte, count)
}

/// Appends a frame of 417 bytes. main_data_begin is the first 9 bits of the side information, and the number of bits of the
/// first channel's main data is in its bits 21 to 32 (ISO/IEC 11172-3, 2.4.1.7).
fn push_frame(file: &mut Vec<u8>, begin: u16, bits: u16) -> Result<(), AllocError> {
    let side_front = u32::from(begin) << 23 | u32::from(bits);
    file.extend_from_slice(&[0xff, 0xfb, 0x90, 0x00])?;
    file.extend_from_slice(&side_front.to_be_bytes())?;
    push_fill(file, 0, 409)
}

fn push_repeated(
    alloc: Global,
    file: &mut Vec<u8>,
    frames: &[Frame],
    times: usize,
) -> Result<(), AllocError> {
    let once = file_of(alloc, frames)?;
    for _ in 0..times {
        file.extend_from_slice(&once)?;
    }
    Ok(())
}

impl Stretch {
    fn append_to(&self, alloc: Global, file: &mut Vec<u8>) -> Result<(), AllocError> {
        match self {
            Stretch::Frames(frames) => file.extend_from_slice(&file_of(alloc, frames)?),
            Stretch::Repeated(frames, times) => push_repeated(alloc, file, frames, *times),
            Stretch::Bytes(bytes) => file.extend_from_slice(bytes),
            Stretch::Fill(byte, count) => push_fill(file, *byte, *count),
            Stretch::Filled(front, byte, count) => push_filled(file, front, *byte, *count),
            Stretch::Frame(begin, bits) => push_frame(file, *begin, *bits),
        }
    }
}

/// The stretches end to end.
pub fn bytes_of(alloc: Global, stretches: &[Stretch]) -> Result<Vec<u8>, AllocError> {
    let mut file = Vec::new(alloc);
    for stretch in stretches {
        stretch.append_to(alloc, &mut file)?;
    }
    Ok(file)
}
