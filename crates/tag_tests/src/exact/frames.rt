//! Info frames whose extension has delay, padding, music length and tag CRC. The CRCs are from a program in Python that follows the
//! description of LAME's tag.

use arrayvec::ArrayVec;
use exact_span::{arc, extension, seal};
use frame_header::{Header, NotHeader, Slot};
use info_header::{Info, info_over, write_info};
use std::process::Abort;
use std::test::Fail;
use test_files::table;

/// MPEG-1, 44,100 Hz, two channels, at 32 and 128 kbit/s: 104 and 417 bytes. The Info frame has 208.
const RATE_32: [u8; 4] = [0xff, 0xfb, 0x10, 0x00];

const RATE_128: [u8; 4] = [0xff, 0xfb, 0x90, 0x00];

/// MPEG-2, 24,000 Hz, one channel, at 8 kbit/s: 24 bytes. The Info frame has 169.
const LOW: [u8; 4] = [0xff, 0xf3, 0x14, 0xc0];

/// An extension by LAME, with other bytes where the piece has its own.
const BY_LAME: [u8; 36] =
    *b"LAME3.100\x11\x11\x11\x11\x11\x11\x11\x11\x11\x11\x11\x11\x24\x02\xd0\x22\x22\x22\x22\x22\x22\x22\x22\x22\x22\x22\x22";

/// The frames after the Info frame, its quality, the extension of the input, delay and padding, where the text is, and the extension
/// that is written.
struct Case {
    frames: &'static [[u8; 4]],
    quality: u32,
    old: Option<[u8; 36]>,
    delay: u16,
    padding: u16,
    text: usize,
    wanted: [u8; 36],
}

static CASES: [Case; 5] = table! {
    Case { frames, quality, old, delay, padding, text, wanted }
    (&[RATE_128, RATE_128], 0, None, 623, 529, 36,
        *b"LAME\0\0\0\0\0\0\0\0\0\0\0\0\0\0\0\0\0\x26\xf2\x11\0\0\0\0\0\0\x04\x12\0\0\x8a\x70")
    (&[RATE_128, RATE_128, RATE_128, RATE_128], 57, Some(BY_LAME), 576, 720, 36,
        *b"LAME3.100\x11\x11\x11\x11\x11\x11\x11\x11\x11\x11\x11\x11\x24\x02\xd0\x22\x22\x22\x22\0\0\x07\x54\0\0\x30\x4a")
    (&[RATE_128, RATE_128], 57, Some(BY_LAME), 747, 675, 36,
        *b"LAME3.100\x11\x11\x11\x11\x11\x11\x11\x11\x11\x11\x11\x11\x2e\xb2\xa3\x22\x22\x22\x22\0\0\x04\x12\0\0\x1c\x9c")
    (&[LOW, LOW], 0, None, 47, 529, 13,
        *b"LAME\0\0\0\0\0\0\0\0\0\0\0\0\0\0\0\0\0\x02\xf2\x11\0\0\0\0\0\0\0\xd9\0\0\xe1\xf0")
    (&[RATE_32, RATE_128], 0, None, 623, 529, 36,
        *b"LAME\0\0\0\0\0\0\0\0\0\0\0\0\0\0\0\0\0\x26\xf2\x11\0\0\0\0\0\0\x02\xd9\0\0\xcd\x81")
};

/// The slots of these frames.
fn slots_of(frames: &[[u8; 4]]) -> Result<ArrayVec<Slot, 4>, NotHeader> {
    let mut slots = ArrayVec::new();
    for frame in frames {
        let _ = slots.try_push(Header::read(*frame)?.slot);
    }
    Ok(slots)
}

/// The head of the input, where only the extension matters.
fn old_of(extension: [u8; 36]) -> Info {
    Info {
        vbr: false,
        frames: None,
        bytes: None,
        table: None,
        quality: None,
        extension,
    }
}

/// The extension that a case's piece gets.
fn extension_of(case: &Case) -> [u8; 36] {
    if case.delay > 3_000 || case.padding > 3_000 {
        return [0; 36];
    }
    match case.old {
        Some(old) => extension(Some(&old_of(old)), case.delay, case.padding),
        None => extension(None, case.delay, case.padding),
    }
}

/// The whole Info frame.
fn frame_of(case: &Case) -> Result<ArrayVec<u8, 1441>, NotHeader> {
    let first = Header::read(*case.frames.first().unwrap_or(&RATE_128))?;
    let class = first.class();
    let slots = slots_of(case.frames)?;
    let info = Info {
        quality: Some(case.quality),
        extension: extension_of(case),
        ..info_over(class, slots.as_slice())
    };
    let mut frame = ArrayVec::new();
    write_info(&first, &info, &mut frame);
    if frame.len() >= 160 + class.side_size() as usize {
        seal(class, &mut frame);
    }
    Ok(frame)
}

/// Whether the frame has the wanted extension at its place, and is read back the same.
fn is_sealed(case: &Case) -> bool {
    match frame_of(case) {
        Ok(frame) => match frame.as_slice().get(case.text..) {
            Some(head) => Info::read(head).extension == case.wanted,
            None => false,
        },
        Err(_) => false,
    }
}

#[test]
fn sealed_info_frames(rt: HostRuntime) -> Result<(), Fail> {
    for (number, case) in CASES.iter().enumerate() {
        assert!(rt; is_sealed(case), "row {number}");
    }
    Ok(())
}

/// Another encoder's extension isn't kept.
#[test]
fn an_extension_of_another_encoder(rt: HostRuntime) -> Result<(), Fail> {
    let old = old_of(
        *b"GOGO3.100\x11\x11\x11\x11\x11\x11\x11\x11\x11\x11\x11\x11\x24\x02\xd0\x22\x22\x22\x22\x22\x22\x22\x22\x22\x22\x22\x22",
    );
    let wanted = *b"LAME\0\0\0\0\0\0\0\0\0\0\0\0\0\0\0\0\0\x26\xf2\x11\0\0\0\0\0\0\0\0\0\0\0\0";
    assert!(rt; extension(Some(&old), 623, 529) == wanted);
    Ok(())
}

/// The check value that is published for CRC-16/ARC.
#[test]
fn the_word_of_nine_digits(rt: HostRuntime) -> Result<(), Fail> {
    assert!(rt; arc(0, b"123456789") == 0xbb3d);
    assert!(rt; arc(arc(0, b"1234"), b"56789") == 0xbb3d);
    Ok(())
}
