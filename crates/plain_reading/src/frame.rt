//! Headers of frames, by the tables of ISO/IEC 11172-3 and 13818-3, 2.4, and of MPEG-2.5.

use crate::bits::{bit, number};

/// Bit rates in kbit/s of index 1 to 14.
static RATES_OF_MPEG_1: [u16; 14] = [
    32, 40, 48, 56, 64, 80, 96, 112, 128, 160, 192, 224, 256, 320,
];

static RATES_OF_MPEG_2: [u16; 14] = [8, 16, 24, 32, 40, 48, 56, 64, 80, 96, 112, 128, 144, 160];

/// Sampling frequencies in Hz of index 0 to 2.
static FREQUENCIES_OF_MPEG_1: [u64; 3] = [44_100, 48_000, 32_000];

static FREQUENCIES_OF_MPEG_2: [u64; 3] = [22_050, 24_000, 16_000];

static FREQUENCIES_OF_MPEG_2_5: [u64; 3] = [11_025, 12_000, 8_000];

/// Version, frequency in Hz, and number of channels.
#[derive(Clone, Copy, PartialEq, Eq)]
pub(crate) struct Class {
    pub(crate) is_mpeg_1: bool,
    pub(crate) frequency: u64,
    pub(crate) channels: usize,
}

#[derive(Clone, Copy)]
pub(crate) struct Frame {
    pub(crate) at: usize,
    pub(crate) length: usize,
    pub(crate) class: Class,
    pub(crate) is_protected: bool,
    /// Where its side information begins, in bytes from its first byte, and where its area does.
    pub(crate) side_at: usize,
    pub(crate) area_at: usize,
}

/// What is at an offset.
#[derive(Clone, Copy)]
pub(crate) enum Found {
    Frame(Frame),
    FreeFormat,
    Block(usize),
    ZeroByte,
    End,
    Nothing,
}

/// The twelfth bit is 0 in MPEG-2.5 alone, where ID is 0 too.
fn class_at(bytes: &[u8]) -> Option<Class> {
    let is_mpeg_1 = bit(bytes, 12);
    let frequencies = match (bit(bytes, 11), is_mpeg_1) {
        (true, true) => &FREQUENCIES_OF_MPEG_1,
        (true, false) => &FREQUENCIES_OF_MPEG_2,
        (false, false) => &FREQUENCIES_OF_MPEG_2_5,
        (false, true) => return None,
    };
    let frequency = *frequencies.get(number(bytes, 20, 2) as usize)?;
    let is_single = number(bytes, 24, 2) == 3;
    Some(Class {
        is_mpeg_1,
        frequency,
        channels: if is_single { 1 } else { 2 },
    })
}

/// The length in bytes of a frame with this bit rate in
/// kbit/s, without padding: 1,152 or 576 samples' worth.
fn length_of(class: &Class, rate: u16) -> usize {
    let samples_in_bytes = if class.is_mpeg_1 { 144 } else { 72 };
    let bits_a_second = 1000 * u64::from(rate);
    (samples_in_bytes * bits_a_second)
        .checked_div(class.frequency)
        .unwrap_or(0) as usize
}

pub(crate) fn side_size(class: &Class) -> usize {
    match (class.is_mpeg_1, class.channels) {
        (true, 2) => 32,
        (true, _) | (false, 2) => 17,
        (false, _) => 9,
    }
}

fn frame_at(at: usize, bytes: &[u8], class: Class, rate: u16) -> Frame {
    let is_protected = !bit(bytes, 15);
    let padding = usize::from(bit(bytes, 22));
    let side_at = if is_protected { 6 } else { 4 };
    Frame {
        at,
        length: length_of(&class, rate).saturating_add(padding),
        class,
        is_protected,
        side_at,
        area_at: side_size(&class).saturating_add(side_at),
    }
}

/// The frame, or free format, where there is a header of Layer III.
pub(crate) fn header_at(at: usize, bytes: &[u8]) -> Option<Found> {
    if bytes.len() < 4 || number(bytes, 0, 11) != 0x7ff || number(bytes, 13, 2) != 1 {
        return None;
    }
    let class = class_at(bytes)?;
    let rate_index = number(bytes, 16, 4) as usize;
    if rate_index == 0 {
        return Some(Found::FreeFormat);
    }
    let rates = if class.is_mpeg_1 {
        &RATES_OF_MPEG_1
    } else {
        &RATES_OF_MPEG_2
    };
    let rate = *rates.get(rate_index.saturating_sub(1))?;
    Some(Found::Frame(frame_at(at, bytes, class, rate)))
}
