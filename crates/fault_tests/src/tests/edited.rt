//! Two frames of 417 bytes, or one and a tag, cut short at each length; and two frames with each value of each byte of the second
//! header. What is found follows by rules from the standard's table of bit rates and the bits of a header.

use super::{first_faults, walks};
use std::alloc::{AllocError, Global};
use std::process::Abort;
use std::test::Fail;
use sync_survey::SurveyFault;
use test_files::files::Stretch::{Bytes, Filled};
use test_files::files::{Stretch, bytes_of};
use test_files::{end_to_end, table};

/// The bit rates of MPEG-1 in units of 8 kbit/s, by their index.
const RATES: [u8; 16] = [0, 4, 5, 6, 7, 8, 10, 12, 14, 16, 20, 24, 28, 32, 40, 0];

/// A frame of 417 bytes and an item after it: from how many bytes on it is seen that an item begins there, and how many there are.
struct Two {
    file: &'static [Stretch],
    seen: usize,
    whole: usize,
}

/// A frame with the gains 101, 102, 0 and 91, and a tag of 96 bytes with the item that gives back its gains. Its header has 32.
const TAGGED: &[Stretch] = &end_to_end! {
    Filled(
        b"\xff\xfb\x90\0\0\0\0\x08\0\x32\x80\0\0\0\x01\0\x06\x60\0\0\0\0\x20\0\0\0\0\0\0\x04\0\x16\xc0",
        0,
        3,
    ),
    Filled(b"\x11\x22\x33\x44", 0, 377),
    Bytes(b"APETAGEX\xd0\x07\0\0\x40\0\0\0\x01\0\0\0\0\0\0\xa0\0\0\0\0\0\0\0\0"),
    Bytes(b"\x0b\0\0\0\0\0\0\0MP3GAIN_UNDO\0-001,-001,W"),
    Bytes(b"APETAGEX\xd0\x07\0\0\x40\0\0\0\x01\0\0\0\0\0\0\x80\0\0\0\0\0\0\0\0")
};

static TWOS: [Two; 3] = table! {
    Two { file, seen, whole }
    (walks::TWO_FRAMES, 421, 834)
    (first_faults::TWO_FRAMES, 421, 834)
    (TAGGED, 449, 513)
};

/// The fault of the first `length` bytes.
fn cut_answer(two: &Two, length: usize) -> Option<SurveyFault> {
    match length {
        0..=3 => Some(SurveyFault::NoFrame(0)),
        4..=416 => Some(SurveyFault::Truncated(0)),
        417 => None,
        _ if length < two.seen => Some(SurveyFault::LostSync(417)),
        _ if length < two.whole => Some(SurveyFault::Truncated(417)),
        _ => None,
    }
}

/// The greatest length at which another fault is found in the cut file.
fn wrong_cut(alloc: Global, two: &Two) -> Result<Option<usize>, AllocError> {
    let mut file = bytes_of(alloc, two.file)?;
    if file.len() != two.whole {
        return Ok(Some(file.len()));
    }
    for length in (0..two.whole + 1).rev() {
        file.truncate(length);
        if !first_faults::both_find(alloc, &file, 2, cut_answer(two, length))? {
            return Ok(Some(length));
        }
    }
    Ok(None)
}

/// The same for all of these files.
fn wrong_cut_of_all(alloc: Global) -> Result<Option<usize>, AllocError> {
    for two in &TWOS {
        let wrong = wrong_cut(alloc, two)?;
        if wrong.is_some() {
            return Ok(wrong);
        }
    }
    Ok(None)
}

#[test]
fn files_cut_short(rt: HostRuntime) -> Result<(), Fail> {
    let wrong = wrong_cut_of_all(rt.alloc())?.unwrap_or(1000);
    assert!(rt; wrong == 1000, "{wrong} bytes");
    Ok(())
}

/// The fault where the first byte of the second header has this value: a zero byte is skipped.
fn of_first_byte(value: u8) -> Option<SurveyFault> {
    match value {
        0 => Some(SurveyFault::LostSync(418)),
        0xff => None,
        _ => Some(SurveyFault::LostSync(417)),
    }
}

/// The fault where the second byte has this value: three bits of the sync word, two for the version, two for the layer, and one that is
/// 0 where there is a check word.
fn of_second_byte(value: u8) -> Option<SurveyFault> {
    match value {
        // MPEG-2.5, in which the frame would have 522 bytes.
        0xe2 | 0xe3 => Some(SurveyFault::Truncated(417)),
        0xf2 | 0xf3 => Some(SurveyFault::Mixed(417)),
        // The word was worked out independently, by long division.
        0xfa => Some(SurveyFault::CheckWord(417, 0x2880, 0x2ede)),
        0xfb => None,
        _ => Some(SurveyFault::LostSync(417)),
    }
}

/// The length of a frame with this third byte, which has four bits for the bit rate, two for the frequency, and one for padding.
fn length_of(value: u8, frequency: u32) -> u32 {
    let eighth = 1_152_000 * u32::from(RATES[usize::from(value / 16)]);
    let length = eighth.checked_div(frequency).unwrap_or(0);
    length.saturating_add(u32::from(value / 2 % 2))
}

/// The fault where the frame has this length. Its area is 36
/// bytes shorter, and its main data begin 81 bytes before that.
fn of_length(length: u32) -> Option<SurveyFault> {
    match length {
        0..=364 => Some(SurveyFault::Overrun(417, 3200, 8 * (81 + length - 36))),
        365..=417 => None,
        _ => Some(SurveyFault::Truncated(417)),
    }
}

/// The fault where the frame has this length and another frequency.
fn of_other_class(length: u32) -> Option<SurveyFault> {
    match length {
        0..=417 => Some(SurveyFault::Mixed(417)),
        _ => Some(SurveyFault::Truncated(417)),
    }
}

/// The fault where the third byte has this value.
fn of_third_byte(value: u8) -> Option<SurveyFault> {
    match (value / 16, value / 4 % 4) {
        (15, _) | (_, 3) => Some(SurveyFault::LostSync(417)),
        (0, _) => Some(SurveyFault::FreeFormat(417)),
        (_, 0) => of_length(length_of(value, 44_100)),
        (_, 1) => of_other_class(length_of(value, 48_000)),
        _ => of_other_class(length_of(value, 32_000)),
    }
}

/// The fault where the last byte, whose first two
/// bits are the mode of the channels, has this value.
fn of_last_byte(value: u8) -> Option<SurveyFault> {
    match value {
        0xc0..=0xff => Some(SurveyFault::Mixed(417)),
        _ => None,
    }
}

fn changed_answer(at: usize, value: u8) -> Option<SurveyFault> {
    match at {
        417 => of_first_byte(value),
        418 => of_second_byte(value),
        419 => of_third_byte(value),
        _ => of_last_byte(value),
    }
}

/// Whether this fault is found in the file where the byte has this value. The byte keeps the value.
fn finds_changed(alloc: Global, file: &mut [u8], at: usize, value: u8) -> Result<bool, AllocError> {
    match file.get_mut(at) {
        Some(byte) => *byte = value,
        None => return Ok(false),
    }
    first_faults::both_find(alloc, file, 2, changed_answer(at, value))
}

/// The first byte of the second header, and its first value, for which another fault is found.
fn wrong_change(alloc: Global) -> Result<Option<(usize, u8)>, AllocError> {
    for at in 417..421 {
        let mut file = bytes_of(alloc, first_faults::TWO_FRAMES)?;
        for value in 0..=255 {
            if !finds_changed(alloc, &mut file, at, value)? {
                return Ok(Some((at, value)));
            }
        }
    }
    Ok(None)
}

#[test]
fn changed_headers(rt: HostRuntime) -> Result<(), Fail> {
    let (at, value) = wrong_change(rt.alloc())?.unwrap_or((0, 0));
    assert!(rt; at == 0, "byte {at} as {value}");
    Ok(())
}
