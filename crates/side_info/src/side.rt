//! The side information of a frame.
ghost use Rattle.std.specs.Prelude.{◌≡◌, ◌↔◌, IsTrue, ◌^◌, ◌<◌, length, sum_by};
ghost use Rattle.bit_fields.specs.Bits.{bits};
ghost use Rattle.frame_header.specs.Tables.{side_size_of};
ghost use Rattle.frame_header.specs.declared.version.Version.TheVariants.{One};
ghost use Rattle.side_info.specs.Parts.{class_with, AreChannels};
ghost use Rattle.side_info.specs.Side.{no_side, side_at, side_bits, payload_bits, payload_bytes, IsSideOf, SideFits};

use crate::fitting::{front_fits, pair_fits};
use crate::granule::{Granule, NO_GRANULE};
use crate::reading::{read_front, read_pair, read_second};
use crate::widths::{front_size, granule_width, side_size};
use crate::writing::{front_word, write_granules};
use frame_header::{Class, Version};

/// The fields of the side information of a frame. A field that the class lacks is 0.
#[derive(Clone, Copy, Debug, PartialEq, Eq)]
pub struct Side {
    /// How many bytes before the frame's own area its main data begin, counted over areas alone.
    pub main_data_begin: u16,
    pub private_bits: u8,
    /// The scale factor selection of each channel, 4 bits; 0 in MPEG-2 and MPEG-2.5.
    pub scfsi: [u8; 2],
    /// `granules[g][c]` is granule g, channel c.
    pub granules: [[Granule; 2]; 2],
}

/// How many bits of main data the channels of a granule have.
fn pair_bits(pair: &[Granule; 2]) -> u32
    ensures two { length pair.now ≡ 2 }
    ensures sum { result ≡ sum_by (λ (g : Granule). g.part2_3_length) pair.now }
    ensures most { result < 2 ^ 17 }
{
    let first = pair[0].part2_3_length;
    let second = pair[1].part2_3_length;
    u32::from(first) + u32::from(second)
}

/// Reads the side information of a frame of this version with `channels` channels, part by part, over what
/// was in `side`.
#[inline(always)]
fn read_parts(version: Version, channels: u8, bytes: &[u8], side: &mut Side)
    requires channels { AreChannels channels }
    requires size { length bytes.now ≡ side_size_of (class_with version 0 channels) }
    ensures { side.new ≡ side_at (class_with version 0 channels) (bits bytes.now) }
{
    // These are all the bytes; where version and channels are constants, so is the length.
    let part = &bytes[..side_size(version, channels)];
    let begin = front_size(version, channels);
    let next = begin + granule_width(version) * usize::from(channels);
    let front = read_front(version, channels, part);
    side.main_data_begin = front.main_data_begin;
    side.private_bits = front.private_bits;
    let scfsi = front.scfsi;
    side.scfsi = scfsi;
    read_pair(version, channels, part, begin, &mut side.granules[0]);
    read_second(version, channels, part, next, &mut side.granules[1]);
}

/// Reads the side information of a frame of this version with `channels` channels, over what was in `side`.
/// In most arms version and channels are constants, so that the compiler knows the offsets of the fields.
#[inline(always)]
fn read_shape(version: Version, channels: u8, bytes: &[u8], side: &mut Side)
    requires channels { AreChannels channels }
    requires size { length bytes.now ≡ side_size_of (class_with version 0 channels) }
    ensures { side.new ≡ side_at (class_with version 0 channels) (bits bytes.now) }
{
    match (version, channels == 1) {
        (Version::One, true) => read_parts(Version::One, 1, bytes, side),
        (Version::One, false) => read_parts(Version::One, 2, bytes, side),
        (Version::Two, true) => read_parts(Version::Two, 1, bytes, side),
        (Version::Two, false) => read_parts(Version::Two, 2, bytes, side),
        (Version::TwoFive, _) => read_parts(Version::TwoFive, channels, bytes, side),
    }
}

/// Reads the side information of a frame of this class.
#[inline(never)]
fn read_new(class: Class, bytes: &[u8]) -> Side
    requires { length bytes.now ≡ side_size_of class }
    ensures { IsSideOf class bytes.now result }
{
    let mut side = Side::empty();
    side.read_over(class, bytes);
    side
}

/// Reads the side information of a frame of MPEG-1 with two channels.
#[inline(always)]
fn read_stereo(class: Class, bytes: &[u8]) -> Side
    requires size { length bytes.now ≡ side_size_of class }
    requires version { class.version ≡ One }
    requires channels { class.channels ≡ 2 }
    ensures { IsSideOf class bytes.now result }
{
    // Looking inside gives the proof the invariant of the class.
    let _ = &class.version;
    let mut side = Side::empty();
    read_parts(Version::One, 2, bytes, &mut side);
    side
}

impl Side {
    /// All fields 0.
    pub fn empty() -> Side
        ensures { result ≡ no_side }
    {
        let scfsi = [0, 0];
        let pair = [NO_GRANULE, NO_GRANULE];
        let granules = [pair, pair];
        Side {
            main_data_begin: 0,
            private_bits: 0,
            scfsi,
            granules,
        }
    }

    /// Whether each field is within its bits for the class, and each that the class lacks is 0.
    pub fn fits(&self, class: Class) -> bool
        ensures { IsTrue result ↔ SideFits class self.now }
    {
        front_fits(self, class)
            && pair_fits(&self.granules[0], class, 0)
            && pair_fits(&self.granules[1], class, 1)
    }

    /// The same fields with another main_data_begin.
    pub fn with_begin(&self, begin: u16) -> Side
        ensures { result ≡ record self.now { main_data_begin = begin } }
    {
        let mut side = *self;
        side.main_data_begin = begin;
        side
    }

    /// Reads the side information of a frame, which has to be all the bytes (ISO/IEC 11172-3 and 13818-3,
    /// 2.4.1.7).
    // The most common class, MPEG-1 with two channels, is inlined, so that fields of it that the caller
    // doesn't use aren't read.
    #[inline(always)]
    pub fn read(class: Class, bytes: &[u8]) -> Side
        requires size { length bytes.now ≡ side_size_of class }
        ensures { IsSideOf class bytes.now result }
    {
        match (class.version, class.channels) {
            (Version::One, 2) => read_stereo(class, bytes),
            _ => read_new(class, bytes),
        }
    }

    /// Reads the side information of a frame over what was in `self`; it has to be all the bytes.
    pub fn read_over(&mut self, class: Class, bytes: &[u8])
        requires size { length bytes.now ≡ side_size_of class }
        ensures { IsSideOf class bytes.now self.new }
    {
        read_shape(class.version, class.channels, bytes, self);
    }

    /// Writes the side information of a frame over all the bytes (ISO/IEC 11172-3 and 13818-3, 2.4.1.7).
    pub fn write(&self, class: Class, bytes: &mut [u8])
        requires fits { SideFits class self.now }
        requires size { length bytes.old ≡ side_size_of class }
        ensures written { bits bytes.new ≡ side_bits class self.now }
        // What is read back is what was written.
        ensures back { side_at class (bits bytes.new) ≡ self.now }
    {
        let front = front_word(self, class.version, class.channels);
        write_granules(
            front,
            &self.granules[0],
            &self.granules[1],
            class.version,
            class.channels,
            bytes,
        );
    }

    // The sum of all part2_3_length.
    fn all_bits(&self) -> u32
        ensures bits { result ≡ payload_bits self.now }
        ensures most { result < 2 ^ 18 }
    {
        pair_bits(&self.granules[0]) + pair_bits(&self.granules[1])
    }

    /// The length of the frame's main data in bits: the sum of all part2_3_length.
    pub fn bits(&self) -> u32
        ensures { result ≡ payload_bits self.now }
    {
        self.all_bits()
    }

    /// The length of the frame's main data in bytes, rounded up.
    pub fn payload_bytes(&self) -> u32
        ensures { result ≡ payload_bytes self.now }
    {
        self.all_bits().div_ceil(8)
    }
}
