//! Headers and lengths from the tables of the standard.

use frame_header::*;
use std::process::Abort;
use std::test::Fail;
use test_files::table;

const MPEG_1: Version = Version::One;

const MPEG_2: Version = Version::Two;

const MPEG_2_5: Version = Version::TwoFive;

/// Four bytes, and the version, the channels, the frequency in
/// Hz, and the length and the area in bytes that they give.
struct Says {
    bytes: [u8; 4],
    version: Version,
    channels: u8,
    frequency: u32,
    length: u32,
    area: u32,
}

static HEADERS: [Says; 10] = table! {
    Says { bytes, version, channels, frequency, length, area }
    ([0xff, 0xfb, 0x90, 0x00], MPEG_1, 2, 44_100, 417, 381)
    ([0xff, 0xfa, 0x90, 0x40], MPEG_1, 2, 44_100, 417, 379)
    ([0xff, 0xfb, 0xe2, 0x00], MPEG_1, 2, 44_100, 1045, 1009)
    ([0xff, 0xfb, 0xea, 0x80], MPEG_1, 2, 32_000, 1441, 1405)
    ([0xff, 0xfb, 0x14, 0xc0], MPEG_1, 1, 48_000, 96, 75)
    ([0xff, 0xf3, 0x14, 0xc0], MPEG_2, 1, 24_000, 24, 11)
    ([0xff, 0xf2, 0x14, 0xc0], MPEG_2, 1, 24_000, 24, 9)
    ([0xff, 0xe3, 0x18, 0xc0], MPEG_2_5, 1, 8_000, 72, 59)
    ([0xff, 0xe3, 0x16, 0x00], MPEG_2_5, 2, 12_000, 49, 28)
    ([0xff, 0xe2, 0x90, 0x40], MPEG_2_5, 2, 11_025, 522, 499)
};

fn is_class(class: Class, row: &Says) -> bool {
    class.version == row.version
        && class.channels == row.channels
        && class.frequency() == row.frequency
}

fn is_said(row: &Says) -> bool {
    match Header::read(row.bytes) {
        Ok(header) => {
            is_class(header.class(), row)
                && header.length() == row.length
                && header.area() == row.area
        }
        Err(_) => false,
    }
}

#[test]
fn headers(rt: HostRuntime) {
    for (number, row) in HEADERS.iter().enumerate() {
        assert!(rt; is_said(row), "row {number}");
    }
}

/// Headers without a check word and with one, with padding and without.
static WRITTEN: [[u8; 4]; 4] = [
    [0xff, 0xfb, 0x90, 0x00],
    [0xff, 0xf3, 0x14, 0xc0],
    [0xff, 0xfb, 0xe2, 0x64],
    [0xff, 0xe2, 0x9a, 0xc4],
];

/// Whether the header of these bytes is written as they are.
fn come_back(bytes: [u8; 4]) -> bool {
    match Header::read(bytes) {
        Ok(header) => header.bytes() == bytes,
        Err(_) => false,
    }
}

#[test]
fn written_headers(rt: HostRuntime) -> Result<(), Fail> {
    assert!(rt; WRITTEN.iter().all(|bytes| come_back(*bytes)));
    // Joint stereo at 320 kbit/s and 44,100 Hz, padded, an original.
    let mut header = Header::read([0xff, 0xfb, 0x90, 0x00])?;
    header.slot = Slot {
        rate_index: 14,
        padding: true,
    };
    header.mode = 1;
    header.mode_extension = 2;
    header.original = true;
    assert!(rt; header.bytes() == [0xff, 0xfb, 0xe2, 0x64]);
    Ok(())
}

/// Bytes that aren't a header, and why.
struct Refused {
    bytes: [u8; 4],
    why: NotHeader,
}

static REFUSED: [Refused; 11] = table! {
    Refused { bytes, why }
    ([0xff, 0xfb, 0x00, 0x00], NotHeader::Free)
    ([0xff, 0xf2, 0x08, 0xc0], NotHeader::Free)
    ([0xff, 0xe3, 0x08, 0xc0], NotHeader::Free)
    // The twelfth bit is 0 and ID is 1: the reserved version.
    ([0xff, 0xeb, 0x90, 0x00], NotHeader::No)
    ([0xff, 0xe5, 0x90, 0x00], NotHeader::No)
    ([0xff, 0xd3, 0x90, 0x00], NotHeader::No)
    ([0x7f, 0xfb, 0x90, 0x00], NotHeader::No)
    ([0xff, 0xfd, 0x90, 0x00], NotHeader::No)
    ([0xff, 0xfb, 0xf0, 0x00], NotHeader::No)
    ([0xff, 0xfb, 0x9c, 0x00], NotHeader::No)
    ([0x49, 0x44, 0x33, 0x03], NotHeader::No)
};

fn is_refused(row: &Refused) -> bool {
    match Header::read(row.bytes) {
        Ok(_) => false,
        Err(why) => why == row.why,
    }
}

#[test]
fn bytes_that_are_no_header(rt: HostRuntime) {
    for (number, row) in REFUSED.iter().enumerate() {
        assert!(rt; is_refused(row), "row {number}");
    }
}

/// A version and a frequency index, the frequency in Hz, and the lengths in bytes without padding for the bit
/// rate indexes 1 to 14.
struct ClassLengths {
    version: Version,
    frequency_index: u8,
    frequency: u32,
    lengths: [u16; 14],
}

static ALL_LENGTHS: [ClassLengths; 9] = table! {
    ClassLengths { version, frequency_index, frequency, lengths }
    (MPEG_1, 0, 44_100, [104, 130, 156, 182, 208, 261, 313, 365, 417, 522, 626, 731, 835, 1044])
    (MPEG_1, 1, 48_000, [96, 120, 144, 168, 192, 240, 288, 336, 384, 480, 576, 672, 768, 960])
    (MPEG_1, 2, 32_000, [144, 180, 216, 252, 288, 360, 432, 504, 576, 720, 864, 1008, 1152, 1440])
    (MPEG_2, 0, 22_050, [26, 52, 78, 104, 130, 156, 182, 208, 261, 313, 365, 417, 470, 522])
    (MPEG_2, 1, 24_000, [24, 48, 72, 96, 120, 144, 168, 192, 240, 288, 336, 384, 432, 480])
    (MPEG_2, 2, 16_000, [36, 72, 108, 144, 180, 216, 252, 288, 360, 432, 504, 576, 648, 720])
    (MPEG_2_5, 0, 11_025, [52, 104, 156, 208, 261, 313, 365, 417, 522, 626, 731, 835, 940, 1044])
    (MPEG_2_5, 1, 12_000, [48, 96, 144, 192, 240, 288, 336, 384, 480, 576, 672, 768, 864, 960])
    (MPEG_2_5, 2, 8_000, [72, 144, 216, 288, 360, 432, 504, 576, 720, 864, 1008, 1152, 1296, 1440])
};

/// Whether each slot of the class has its length.
fn has_lengths(class: Class, lengths: &[u16; 14]) -> bool {
    for rate_index in 1..15 {
        let plain = Slot {
            rate_index,
            padding: false,
        };
        let padded = Slot {
            rate_index,
            padding: true,
        };
        let wanted = u32::from(lengths[rate_index as usize - 1]);
        if class.length_of(plain) != wanted || class.length_of(padded) != wanted + 1 {
            return false;
        }
    }
    true
}

fn is_of_lengths(row: &ClassLengths) -> bool {
    if row.frequency_index > 2 {
        return false;
    }
    let class = Class {
        version: row.version,
        frequency_index: row.frequency_index,
        channels: 2,
    };
    class.frequency() == row.frequency && has_lengths(class, &row.lengths)
}

#[test]
fn lengths(rt: HostRuntime) {
    for row in &ALL_LENGTHS {
        assert!(rt; is_of_lengths(row), "{} Hz", row.frequency);
    }
}

/// The bit rates of a version in kbit/s, for the bit rate indexes 1 to 14; the samples of a frame, and the window in bytes.
struct VersionRates {
    version: Version,
    rates: [u16; 14],
    samples: u32,
    window: u32,
}

const LOWER_RATES: [u16; 14] = [8, 16, 24, 32, 40, 48, 56, 64, 80, 96, 112, 128, 144, 160];

static RATES: [VersionRates; 3] = table! {
    VersionRates { version, rates, samples, window }
    (MPEG_1, [32, 40, 48, 56, 64, 80, 96, 112, 128, 160, 192, 224, 256, 320], 1152, 511)
    (MPEG_2, LOWER_RATES, 576, 255)
    (MPEG_2_5, LOWER_RATES, 576, 255)
};

/// Whether each bit rate index of the class has its rate.
fn has_rates(class: Class, rates: &[u16; 14]) -> bool {
    for rate_index in 1..15 {
        let slot = Slot {
            rate_index,
            padding: false,
        };
        if class.rate(slot) != u32::from(rates[rate_index as usize - 1]) {
            return false;
        }
    }
    true
}

fn is_of_rates(row: &VersionRates) -> bool {
    let class = Class {
        version: row.version,
        frequency_index: 0,
        channels: 2,
    };
    class.samples() == row.samples && class.window() == row.window && has_rates(class, &row.rates)
}

#[test]
fn rates(rt: HostRuntime) {
    for (number, row) in RATES.iter().enumerate() {
        assert!(rt; is_of_rates(row), "row {number}");
    }
}

// A protected joint stereo frame of 128 kbit/s and 44,100 Hz: an area of 379 bytes.
const PROTECTED: [u8; 4] = [0xff, 0xfa, 0x90, 0x64];

fn is_header(header: &Header, bytes: [u8; 4], area: u32) -> bool {
    header.bytes() == bytes && header.area() == area
}

#[test]
fn slots(rt: HostRuntime) -> Result<(), Fail> {
    let header = Header::read(PROTECTED)?;
    let slots = header.class().slots();
    assert!(rt; slots.len() == 28);
    let first = header.unprotected(slots[0]);
    assert!(rt; is_header(&first, [0xff, 0xfb, 0x10, 0x64], 68));
    let last = header.with_slot(slots[27]);
    assert!(rt; is_header(&last, [0xff, 0xfa, 0xe2, 0x64], 1007));
    Ok(())
}

#[test]
fn slots_in_their_order(rt: HostRuntime) -> Result<(), Fail> {
    let slots = Header::read(PROTECTED)?.class().slots();
    let wanted = Slot {
        rate_index: 9,
        padding: true,
    };
    assert!(rt; slots.as_slice().get(17) == Some(&wanted));
    assert!(rt; slots.as_slice().first() == Some(&Slot::default()));
    assert!(rt; slots.len() == 28);
    Ok(())
}

#[test]
fn one_channel_less_is_another_class(rt: HostRuntime) -> Result<(), Fail> {
    let header = Header::read(PROTECTED)?;
    let class = header.class();
    let first = header.unprotected(Slot::default());
    assert!(rt; class.is_same(first.class()));
    let mono = Header::read([0xff, 0xfa, 0x90, 0xc4])?;
    assert!(rt; !class.is_same(mono.class()));
    Ok(())
}
