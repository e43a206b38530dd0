//! What all frames of one stream share.
ghost use Rattle.std.specs.Prelude.{◌≡◌, ◌+◌, ◌<◌, ◌≤◌, ◌↔◌, Bool, false, IsTrue, Contains, AllPairs};
ghost use Rattle.frame_header.specs.declared.version.Version.TheVariants.{One};
ghost use Rattle.frame_header.specs.Fields.{SlotFields, IsSlot, same_class};
ghost use Rattle.frame_header.specs.Tables.{rate_of, frequency_of, samples_of, side_size_of, window_of, version_index, length_of, overhead_of, area_of};
ghost use Rattle.frame_header.specs.Slots.{all_slots, areas_of, largest_slot};
ghost use Rattle.frame_header.specs.Limits.{most_frame_length, most_front};

use crate::slot::Slot;
use crate::version::Version;
use arrayvec::ArrayVec;
use std::marker::Model;

/// Version, frequency index (0 to 2) and number of channels (1 or 2).
#[derive(Clone, Copy, Debug, PartialEq, Eq)]
pub struct Class {
    pub version: Version,
    pub frequency_index: u8,
    pub channels: u8,
}

impl Model for Class {
    ghost use Rattle.frame_header.specs.Fields.{ClassFields, IsClass};

    ghost Value = { ClassFields };

    ghost view = { λ c. record {
      version = c.version;
      frequency_index = c.frequency_index;
      channels = c.channels;
    } };

    ghost invariant = { λ c. IsClass (record {
      version = c.version;
      frequency_index = c.frequency_index;
      channels = c.channels;
    }) };

    ghost inverse = { λ v. record {
      version = v.version;
      frequency_index = v.frequency_index;
      channels = v.channels;
    } };
}

#[tactic(auto, unfolding(crate::specs::Fields::same_class, crate::specs::Tables::frequency_of, crate::specs::Tables::rate_of, crate::specs::Tables::side_size_of, crate::specs::Tables::length_of, crate::specs::Tables::area_of, crate::specs::Tables::overhead_of))]
impl Class {
    /// The sampling frequency in Hz, from 8,000 to 48,000 (ISO/IEC 11172-3 and 13818-3, 2.4.2.3).
    pub fn frequency(&self) -> u32
        ensures frequency { result ≡ frequency_of self.now }
        ensures some { 0 < result }
        ensures most { result ≤ 48000 }
    {
        match (self.version, self.frequency_index) {
            (Version::One, 0) => 44_100,
            (Version::One, 1) => 48_000,
            (Version::One, _) => 32_000,
            (Version::Two, 0) => 22_050,
            (Version::Two, 1) => 24_000,
            (Version::Two, _) => 16_000,
            (Version::TwoFive, 0) => 11_025,
            (Version::TwoFive, 1) => 12_000,
            (Version::TwoFive, _) => 8_000,
        }
    }

    /// How many samples a frame has in each channel: 1,152 in MPEG-1, 576 in MPEG-2 and MPEG-2.5.
    pub fn samples(&self) -> u32
        ensures { result ≡ samples_of self.now.version }
    {
        match self.version {
            Version::One => 1152,
            Version::Two | Version::TwoFive => 576,
        }
    }

    /// The length of the side information in bytes: with two channels 32 in MPEG-1, 17 in MPEG-2 and
    /// MPEG-2.5; with one channel 17 and 9 (ISO/IEC 11172-3 and 13818-3, 2.4.1.7).
    pub fn side_size(&self) -> u32
        ensures size { result ≡ side_size_of self.now }
        ensures least { 9 ≤ result }
        ensures most { result ≤ 32 }
    {
        match (self.version, self.channels) {
            (Version::One, 1) => 17,
            (Version::One, _) => 32,
            (Version::Two | Version::TwoFive, 1) => 9,
            (Version::Two | Version::TwoFive, _) => 17,
        }
    }

    /// This class, which has to be MPEG-1 with two channels, the most common one: the compiler then knows
    /// the places of all fields.
    #[inline(always)]
    pub fn known_stereo(&self) -> Class
        requires version { self.now.version ≡ One }
        requires channels { self.now.channels ≡ 2 }
        ensures { result ≡ self.now }
    {
        Class {
            version: Version::One,
            frequency_index: self.frequency_index,
            channels: 2,
        }
    }

    /// How many bytes before a frame's own area its main data may begin, which is the greatest
    /// main_data_begin: 511 in MPEG-1, 255 in MPEG-2 and MPEG-2.5 (ISO/IEC 11172-3 and 13818-3, 2.4.2.7).
    pub fn window(&self) -> u32
        ensures window { result ≡ window_of self.now.version }
        // The area of the largest frame without a check word has room for as many bytes. Said here, where
        // the class is known to be legal.
        ensures spanned { result ≤ area_of self.now largest_slot false }
    {
        match self.version {
            Version::One => 511,
            Version::Two | Version::TwoFive => 255,
        }
    }

    /// The bit rate in kbit/s, from 8 to 320 (ISO/IEC 11172-3 and 13818-3, 2.4.2.3).
    pub fn rate(&self, slot: Slot) -> u32
        ensures rate { result ≡ rate_of self.now slot }
        ensures least { 8 ≤ result }
        ensures most { result ≤ 320 }
    {
        let index = slot.rate_index as usize - 1;
        let rate = match self.version {
            Version::One => MPEG_1_RATES[index],
            Version::Two | Version::TwoFive => MPEG_2_RATES[index],
        };
        u32::from(rate)
    }

    /// The length of a frame in bytes, at most 1,441 (ISO/IEC 11172-3 and 13818-3, 2.4.3.1).
    pub fn length_of(&self, slot: Slot) -> u32
        ensures length { result ≡ length_of self.now slot }
        ensures most { result ≤ most_frame_length }
        // Header, check word and side information leave room for main data.
        ensures room { 6 + side_size_of self.now < result }
    {
        let row = 3 * version_index(self.version) + self.frequency_index as usize;
        let length = LENGTHS[row][slot.rate_index as usize - 1];
        u32::from(length) + u32::from(slot.padding)
    }

    /// How many bytes of a frame are before its area: header, check word where it is protected, and side
    /// information. From 13 to 38.
    #[inline(always)]
    pub fn overhead(&self, protected: bool) -> u32
        ensures overhead { result ≡ overhead_of self.now protected }
        ensures most { result ≤ most_front }
        // This leaves room for main data in every frame, by the clause `room` of `length_of`.
        ensures within { result ≤ 6 + side_size_of self.now }
    {
        let check_word = if protected { 2 } else { 0 };
        4 + check_word + self.side_size()
    }

    /// The length in bytes of a frame's area, which holds main data: the frame's length without header,
    /// check word and side information. From 1 to 1,441.
    pub fn area_of(&self, slot: Slot, protected: bool) -> u32
        ensures area { result ≡ area_of self.now slot protected }
        ensures some { 1 ≤ result }
        ensures most { result ≤ most_frame_length }
        // The area and what is before it add up to the frame.
        ensures whole { overhead_of self.now protected + result ≡ length_of self.now slot }
    {
        self.length_of(slot) - self.overhead(protected)
    }

    /// All 28 slots, by ascending areas, whether or not the frames have check words.
    pub fn slots(&self) -> ArrayVec<Slot, 28>
        ensures slots { result.items ≡ all_slots }
        ensures all { (slot : SlotFields) → IsSlot slot → Contains all_slots slot }
        ensures ascending { (protected : Bool)
            → AllPairs (λ m n. m < n) (areas_of self.now protected) }
    {
        // Looking inside gives the proof the invariant of the class, by which its areas ascend.
        let _ = &self.version;
        let mut slots = ArrayVec::new();
        for rate_index in 1..15 {
            slots.push(Slot {
                rate_index,
                padding: false,
            });
            slots.push(Slot {
                rate_index,
                padding: true,
            });
        }
        slots
    }

    /// Whether version, sampling frequency and number of channels are the same.
    pub fn is_same(&self, other: Class) -> bool
        ensures same { result ≡ same_class self.now other }
        ensures equal { IsTrue result ↔ (self.now ≡ other) }
    {
        self.version == other.version
            && self.frequency_index == other.frequency_index
            && self.channels == other.channels
    }
}

/// The number of a version, for the rows of `LENGTHS`.
fn version_index(version: Version) -> usize
    ensures { result ≡ version_index version }
{
    match version {
        Version::One => 0,
        Version::Two => 1,
        Version::TwoFive => 2,
    }
}

/// Bit rates in kbit/s for the indexes 1 to 14 (ISO/IEC 11172-3, 2.4.2.3).
const MPEG_1_RATES: [u16; 14] = [
    32, 40, 48, 56, 64, 80, 96, 112, 128, 160, 192, 224, 256, 320,
];

/// Bit rates in kbit/s of the lower sampling frequencies, for the indexes 1 to 14 (ISO/IEC 13818-3,
/// 2.4.2.3).
const MPEG_2_RATES: [u16; 14] = [8, 16, 24, 32, 40, 48, 56, 64, 80, 96, 112, 128, 144, 160];

/// Lengths in bytes without padding for the bit rate indexes 1 to 14 (ISO/IEC 11172-3 and 13818-3,
/// 2.4.3.1): three rows for each version, one for each frequency.
static LENGTHS: [[u16; 14]; 9] = [
    [
        104, 130, 156, 182, 208, 261, 313, 365, 417, 522, 626, 731, 835, 1044,
    ],
    [
        96, 120, 144, 168, 192, 240, 288, 336, 384, 480, 576, 672, 768, 960,
    ],
    [
        144, 180, 216, 252, 288, 360, 432, 504, 576, 720, 864, 1008, 1152, 1440,
    ],
    [
        26, 52, 78, 104, 130, 156, 182, 208, 261, 313, 365, 417, 470, 522,
    ],
    [
        24, 48, 72, 96, 120, 144, 168, 192, 240, 288, 336, 384, 432, 480,
    ],
    [
        36, 72, 108, 144, 180, 216, 252, 288, 360, 432, 504, 576, 648, 720,
    ],
    [
        52, 104, 156, 208, 261, 313, 365, 417, 522, 626, 731, 835, 940, 1044,
    ],
    [
        48, 96, 144, 192, 240, 288, 336, 384, 480, 576, 672, 768, 864, 960,
    ],
    [
        72, 144, 216, 288, 360, 432, 504, 576, 720, 864, 1008, 1152, 1296, 1440,
    ],
];
