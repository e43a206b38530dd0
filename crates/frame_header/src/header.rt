//! The 32 bits with which a frame begins.
ghost use Rattle.std.specs.Prelude.{◌≡◌, ℕ, ◌+◌, ◌^◌, ◌<◌, ◌≤◌, ◌==◌, true, false, List, Ok, length};
ghost use Rattle.bit_fields.specs.Bits.{bits, bits_of, AreBytes};
ghost use Rattle.bit_fields.specs.Groups.{group};
ghost use Rattle.frame_header.specs.Tables.{class_of, length_of, overhead_of, area_of};
ghost use Rattle.frame_header.specs.Reading.{header_at, header_in, rate_bits, frequency_bits, header_of_class, is_readable, version_of};
ghost use Rattle.frame_header.specs.Fields.{HeaderFields, version_number};
ghost use Rattle.frame_header.specs.HeaderBits.{header_bits};
ghost use Rattle.frame_header.specs.Limits.{most_frame_length, most_front};

use crate::class::Class;
use crate::slot::Slot;
use crate::version::Version;
use std::marker::Model;

/// Four bytes as one number, the first the most significant.
fn word_at(bytes: &[u8]) -> u32
    requires { length bytes.now ≡ 4 }
    ensures { bits bytes.now ≡ bits_of 32 result }
{
    u32::from_be_bytes([bytes[0], bytes[1], bytes[2], bytes[3]])
}

/// The number of a group of bits of a header, counted from the most significant.
fn group_of(word: u32, from: u32, width: u32) -> u32
    requires some { 1 ≤ width }
    requires within { from + width ≤ 32 }
    requires small { width ≤ 12 }
    ensures group { result ≡ group from width (bits_of 32 word) }
    ensures below { result < 2 ^ width }
{
    (word >> (32 - from - width)) % (1 << width)
}

/// Whether a bit of a header is 1.
fn is_set(word: u32, at: u32) -> bool
    requires { at < 32 }
    ensures { result ≡ (group at 1 (bits_of 32 word) == 1) }
{
    group_of(word, at, 1) == 1
}

/// Whether these are the bits of a header: the first 11 are ones, the next two aren't 01, the layer is III,
/// the bit rate isn't the forbidden one and the frequency isn't the reserved one.
#[tactic(auto, unfolding(crate::specs::Reading::is_readable))]
fn is_readable(word: u32) -> bool
    ensures { result ≡ is_readable (bits_of 32 word) }
{
    group_of(word, 0, 11) == 0x7ff
        && group_of(word, 11, 2) != 1
        && group_of(word, 13, 2) == 1
        && group_of(word, 16, 4) != 15
        && group_of(word, 20, 2) != 3
}

/// Why four bytes aren't a header of the frames that are edited here.
#[derive(Clone, Copy, Debug, PartialEq, Eq)]
pub enum NotHeader {
    /// A readable header with bit rate index 0, which is free format.
    Free,
    /// Not a readable header: no sync word, another layer, the reserved version, the forbidden bit rate or
    /// the reserved frequency.
    No,
}

/// The header of a Layer III frame (ISO/IEC 11172-3 and 13818-3, 2.4.1.3): mode, mode extension and
/// emphasis from 0 to 3, frequency index from 0 to 2.
#[derive(Clone, Copy, Debug, PartialEq, Eq)]
pub struct Header {
    pub version: Version,
    pub protected: bool,
    pub slot: Slot,
    pub frequency_index: u8,
    pub private_bit: bool,
    pub mode: u8,
    pub mode_extension: u8,
    pub copyright: bool,
    pub original: bool,
    pub emphasis: u8,
}

impl Model for Header {
    ghost use Rattle.frame_header.specs.Fields.{HeaderFields, IsHeader};

    ghost Value = { HeaderFields };

    ghost use Rattle.frame_header.specs.HeaderView.{header_view, header_inside};

    ghost view = { header_view };

    ghost invariant = { λ h. IsHeader (header_view h) };

    ghost inverse = { header_inside };
}

/// The version, by the twelfth bit of a header and ID.
fn version_of(word: u32) -> Version
    ensures { result ≡ version_of (bits_of 32 word) }
{
    match group_of(word, 11, 2) {
        3 => Version::One,
        2 => Version::Two,
        _ => Version::TwoFive,
    }
}

/// The header that these bits are, by their version and frequency index. They have to be readable and not
/// free format.
#[inline(always)]
#[tactic(auto, unfolding(crate::specs::Reading::header_in, crate::specs::Reading::header_fields))]
fn header_of(word: u32, version: Version, frequency_index: u8) -> Header
    requires readable { is_readable (bits_of 32 word) ≡ true }
    requires some { 1 ≤ rate_bits (bits_of 32 word) }
    requires most { rate_bits (bits_of 32 word) ≤ 14 }
    requires index { frequency_index ≤ 2 }
    requires version { version ≡ version_of (bits_of 32 word) }
    requires frequency { frequency_index ≡ frequency_bits (bits_of 32 word) }
    ensures { header_in (bits_of 32 word) ≡ Ok result }
{
    Header {
        version,
        protected: group_of(word, 15, 1) == 0,
        slot: Slot {
            rate_index: group_of(word, 16, 4) as u8,
            padding: is_set(word, 22),
        },
        frequency_index,
        private_bit: is_set(word, 23),
        mode: group_of(word, 24, 2) as u8,
        mode_extension: group_of(word, 26, 2) as u8,
        copyright: is_set(word, 28),
        original: is_set(word, 29),
        emphasis: group_of(word, 30, 2) as u8,
    }
}

/// Reads the 32 bits of a header.
///
/// # Errors
/// `No` where they aren't readable, `Free` where they are readable with bit rate index 0.
#[tactic(auto, unfolding(crate::specs::Reading::header_in, crate::specs::Reading::is_readable))]
fn read_word(word: u32) -> Result<Header, NotHeader>
    ensures { result ≡ header_in (bits_of 32 word) }
{
    if !is_readable(word) {
        return Err(NotHeader::No);
    }
    if group_of(word, 16, 4) == 0 {
        return Err(NotHeader::Free);
    }
    let frequency_index = group_of(word, 20, 2) as u8;
    Ok(header_of(word, version_of(word), frequency_index))
}

/// Whether a group of bits is the same in two headers.
#[inline(always)]
fn is_same_group(word: u32, other: u32, from: u32, width: u32) -> bool
    requires some { 1 ≤ width }
    requires within { from + width ≤ 32 }
    requires small { width ≤ 12 }
    ensures { result ≡ (group from width (bits_of 32 word) == group from width (bits_of 32 other)) }
{
    group_of(word, from, width) == group_of(other, from, width)
}

/// A header with the version and the sampling frequency of this class.
#[inline(always)]
fn header_with(class: Class) -> Header
    ensures version { result.version ≡ class.version }
    ensures frequency { result.frequency_index ≡ class.frequency_index }
{
    Header {
        version: class.version,
        protected: false,
        slot: Slot {
            rate_index: 1,
            padding: false,
        },
        frequency_index: class.frequency_index,
        private_bit: false,
        mode: 0,
        mode_extension: 0,
        copyright: false,
        original: false,
        emphasis: 0,
    }
}

/// Whether these are the bits of a header with this version and sampling frequency that isn't free format.
// Compared with another such header, since the compiler then makes one test of version, layer and frequency.
#[inline(always)]
#[tactic(auto, using(crate::proofs::HeaderLemmas::says_class), unfolding(crate::specs::Reading::is_readable))]
fn is_header_of(class: Class, word: u32) -> bool
    ensures readable { result ≡ true → is_readable (bits_of 32 word) ≡ true }
    ensures some { result ≡ true → 1 ≤ rate_bits (bits_of 32 word) }
    ensures most { result ≡ true → rate_bits (bits_of 32 word) ≤ 14 }
    ensures version { result ≡ true → class.version ≡ version_of (bits_of 32 word) }
    ensures frequency { result ≡ true → class.frequency_index ≡ frequency_bits (bits_of 32 word) }
    ensures all { (h : HeaderFields) → header_in (bits_of 32 word) ≡ Ok h
        → h.version ≡ class.version → h.frequency_index ≡ class.frequency_index → result ≡ true }
{
    let own = word_of(&header_with(class));
    let rate_index = group_of(word, 16, 4);
    let synced = is_same_group(word, own, 0, 11) & is_same_group(word, own, 13, 2);
    let version = is_same_group(word, own, 11, 2);
    let frequency = is_same_group(word, own, 20, 2);
    synced & version & frequency & (1 <= rate_index) & (rate_index <= 14)
}

/// The twelfth bit of a header, which is 0 in MPEG-2.5 alone, and the bit ID after it, which is 1 in MPEG-1
/// alone.
fn version_bits(version: Version) -> u32
    ensures { result ≡ version_number version }
{
    match version {
        Version::One => 3,
        Version::Two => 2,
        Version::TwoFive => 0,
    }
}

/// The 32 bits of a header as one number, with the sync bits and the layer as the standard requires.
fn word_of(header: &Header) -> u32
    ensures bits { bits_of 32 result ≡ header_bits header.now }
    ensures back { header_in (bits_of 32 result) ≡ Ok header.now }
{
    let slot = header.slot;
    0x7ff * (1 << 21)
        + version_bits(header.version) * (1 << 19)
        + (1 << 17)
        + u32::from(!header.protected) * (1 << 16)
        + u32::from(slot.rate_index) * (1 << 12)
        + u32::from(header.frequency_index) * (1 << 10)
        + u32::from(slot.padding) * (1 << 9)
        + u32::from(header.private_bit) * (1 << 8)
        + u32::from(header.mode) * (1 << 6)
        + u32::from(header.mode_extension) * (1 << 4)
        + u32::from(header.copyright) * (1 << 3)
        + u32::from(header.original) * (1 << 2)
        + u32::from(header.emphasis)
}

impl Header {
    /// Reads four bytes.
    ///
    /// # Errors
    /// `Free` exactly where they are readable with bit rate index 0, `No` exactly where they aren't
    /// readable.
    pub fn read(bytes: [u8; 4]) -> Result<Header, NotHeader>
        ensures { result ≡ header_at bytes }
    {
        read_word(word_at(&bytes))
    }

    /// The header that four bytes are, if it is of this class, as the headers of all frames of a stream
    /// are. This is faster than `read`, which takes headers of every class.
    #[inline(always)]
    #[tactic(auto, unfolding(crate::specs::Reading::header_at, crate::specs::Reading::header_in))]
    pub fn read_of(class: Class, bytes: [u8; 4]) -> Option<Header>
        ensures { result ≡ header_of_class class (header_at bytes) }
    {
        let word = word_at(&bytes);
        if !is_header_of(class, word) {
            return None;
        }
        let header = header_of(word, class.version, class.frequency_index);
        header.class().is_same(class).then_some(header)
    }

    /// The four bytes of the header (ISO/IEC 11172-3 and 13818-3, 2.4.1.3). Reading them gives the
    /// header back, and where the header was read they are the bytes that it was read from.
    pub fn bytes(&self) -> [u8; 4]
        ensures bits { bits result ≡ header_bits self.now }
        ensures back { header_at result ≡ Ok self.now }
        ensures octets { AreBytes result }
        ensures same { (four : List ℕ) → AreBytes four → length four ≡ 4
            → header_at four ≡ Ok self.now → result ≡ four }
    {
        word_of(self).to_be_bytes()
    }

    /// The header of the same frame in another slot.
    pub fn with_slot(&self, slot: Slot) -> Header
        ensures { result ≡ record self.now { slot = slot } }
    {
        let mut header = *self;
        header.slot = slot;
        header
    }

    /// The header of the same frame in another slot and without a check word, so its protection_bit is 1.
    pub fn unprotected(&self, slot: Slot) -> Header
        ensures { result ≡ record self.now { protected = false; slot = slot } }
    {
        let mut header = *self;
        header.protected = false;
        header.slot = slot;
        header
    }

    /// Version, frequency and number of channels.
    pub fn class(&self) -> Class
        ensures { result ≡ class_of self.now }
    {
        Class {
            version: self.version,
            frequency_index: self.frequency_index,
            channels: if self.mode == 3 { 1 } else { 2 },
        }
    }

    /// The length of the frame in bytes, at most 1,441.
    pub fn length(&self) -> u32
        ensures length { result ≡ length_of (class_of self.now) self.now.slot }
        ensures most { result ≤ most_frame_length }
    {
        self.class().length_of(self.slot)
    }

    /// How many bytes of the frame are before its area: header, check word and side information. From 13 to
    /// 38.
    pub fn overhead(&self) -> u32
        ensures overhead { result ≡ overhead_of (class_of self.now) self.now.protected }
        ensures most { result ≤ most_front }
        ensures whole { result + area_of (class_of self.now) self.now.slot self.now.protected
            ≡ length_of (class_of self.now) self.now.slot }
    {
        self.class().overhead(self.protected)
    }

    /// The length in bytes of the frame's area, which holds main data. From 1 to 1,441.
    pub fn area(&self) -> u32
        ensures area { result ≡ area_of (class_of self.now) self.now.slot self.now.protected }
        ensures some { 1 ≤ result }
        ensures most { result ≤ most_frame_length }
        ensures whole { overhead_of (class_of self.now) self.now.protected + result ≡ length_of
            (class_of self.now) self.now.slot }
    {
        self.class().area_of(self.slot, self.protected)
    }
}
