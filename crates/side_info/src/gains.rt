//! Gains changed in place in a frame.
ghost use Rattle.std.specs.Prelude.{◌≡◌, ℕ, ◌+◌, ◌*◌, ◌^◌, ◌≤◌, ◌++◌, List, length};
ghost use Rattle.bit_fields.specs.Bits.{bits};
ghost use Rattle.frame_header.specs.declared.version.Version.{Version};
ghost use Rattle.frame_header.specs.Tables.{class_of, granules_of, side_size_of, overhead_of};
ghost use Rattle.side_info.specs.declared.granule.Granule.{Granule};
ghost use Rattle.side_info.specs.Granule.{granule_bits, granule_size};
ghost use Rattle.side_info.specs.Parts.{pair_bits, second_pair_bits, AreChannels, PutsPair};
ghost use Rattle.side_info.specs.Gains.{PutsSide, PutsSideAt, PutsCrc, PutsGains};

use crate::crc::check_word_of_bytes;
use crate::frame::{HEADER_SIZE, PROTECTED_SIZE, put_crc};
use crate::frame_front::FrameFront;
use crate::granule::Granule;
use crate::side::Side;
use crate::widths::{front_size, granule_width};
use bit_fields::put_byte;
use frame_header::{Class, Header, Version};

/// Writes the gain of a granule and channel whose side information begins at bit `at`: its eight bits are
/// after the 12 of part2_3_length and the 9 of big_values.
#[inline]
fn put_gain(gain: u8, bytes: &mut [u8], at: usize)
    requires room { at + 37 ≤ 8 * length bytes.old }
    requires short { length bytes.old ≤ 2 ^ 28 }
    ensures { (version : Version) (g : Granule) (before after : List ℕ) → length before ≡ at
        → bits bytes.old ≡ before ++ (granule_bits version g ++ after)
        → bits bytes.new ≡ before ++ (granule_bits version
        (record g { global_gain = gain }) ++ after) }
{
    put_byte(bytes, at + 21, gain);
}

/// Writes the gains of the channels of a granule whose side information begins at bit `at`.
#[inline]
fn put_pair(pair: &[Granule; 2], version: Version, channels: u8, bytes: &mut [u8], at: usize)
    requires channels { AreChannels channels }
    requires room { at + channels * granule_size version ≤ 8 * length bytes.old }
    requires short { length bytes.old ≤ 2 ^ 28 }
    // Stated for an array inside an array, whose length the caller doesn't know. The type says so, but a
    // proof that cites this call needs it as a fact.
    ensures two { length pair.now ≡ 2 }
    ensures put { PutsPair (pair_bits version channels) pair.now at (bits bytes.old)
        (bits bytes.new) }
{
    put_gain(pair[0].global_gain, bytes, at);
    if channels == 1 {
        return;
    }
    put_gain(pair[1].global_gain, bytes, at + granule_width(version));
}

/// Writes the gains of the channels of the second granule, where the version has one.
#[inline]
fn put_second(pair: &[Granule; 2], version: Version, channels: u8, bytes: &mut [u8], at: usize)
    requires channels { AreChannels channels }
    requires room { granules_of version ≡ 2
        → at + channels * granule_size version ≤ 8 * length bytes.old }
    requires short { length bytes.old ≤ 2 ^ 28 }
    // Stated for an array inside an array, whose length the caller doesn't know. The type says so, but a
    // proof that cites this call needs it as a fact.
    ensures two { length pair.now ≡ 2 }
    ensures put { PutsPair (second_pair_bits version channels) pair.now at (bits bytes.old)
        (bits bytes.new) }
{
    match version {
        Version::One => put_pair(pair, version, channels, bytes, at),
        Version::Two | Version::TwoFive => {}
    }
}

/// Writes gains into side information, which has to be all the bytes.
#[inline(always)]
fn put_all(class: Class, side: &Side, bytes: &mut [u8])
    requires size { length bytes.old ≡ side_size_of class }
    ensures { PutsSide class side.now bytes.old bytes.new }
{
    let begin = front_size(class.version, class.channels);
    let next = begin + granule_width(class.version) * usize::from(class.channels);
    put_pair(
        &side.granules[0],
        class.version,
        class.channels,
        bytes,
        begin,
    );
    put_second(
        &side.granules[1],
        class.version,
        class.channels,
        bytes,
        next,
    );
}

/// Writes gains into side information, which has to be all the bytes. In MPEG-1 with two channels, the
/// most common class, the compiler knows their offsets.
#[inline(always)]
fn put_by_class(class: Class, side: &Side, bytes: &mut [u8])
    requires size { length bytes.old ≡ side_size_of class }
    ensures { PutsSide class side.now bytes.old bytes.new }
{
    match (class.version, class.channels) {
        (Version::One, 2) => put_all(class.known_stereo(), side, bytes),
        _ => put_all(class, side, bytes),
    }
}

/// Writes gains into the side information that begins at byte `offset` of a frame.
#[inline(always)]
fn put_at_offset(class: Class, side: &Side, offset: usize, frame: &mut [u8])
    requires room { offset + side_size_of class ≤ length frame.old }
    ensures { PutsSideAt class offset side.now frame.old frame.new }
{
    let end = offset + class.side_size() as usize;
    put_by_class(class, side, &mut frame[offset..end]);
}

/// Writes the check word that is right for the header and the side bytes in the frame.
fn put_right_crc(header: &Header, frame: &mut [u8])
    requires { 6 + side_size_of (class_of header.now) ≤ length frame.old }
    ensures { PutsCrc header.now frame.old frame.new }
{
    let end = PROTECTED_SIZE + header.class().side_size() as usize;
    let word = check_word_of_bytes(&header.bytes(), &frame[PROTECTED_SIZE..end]);
    put_crc(word, frame);
}

/// Writes the gains of `side` into a frame of this class that has the header of `front`, each into its 8
/// bits, and, into a protected frame, the check word that is then right (ISO/IEC 11172-3 and 13818-3,
/// 2.4.1.7 and 2.4.3.1). If the frame's own side information differs from `side` in gains alone, the
/// frame then has `side`. The header, the area and bytes after the frame stay.
#[inline(always)]
pub fn put_gains(front: &FrameFront, class: Class, side: &Side, frame: &mut [u8])
    requires class { class ≡ class_of front.now.header }
    requires room { overhead_of (class_of front.now.header) front.now.header.protected
        ≤ length frame.old }
    ensures { PutsGains front.now.header side.now frame.old frame.new }
{
    if front.protected() {
        put_at_offset(class, side, PROTECTED_SIZE, frame);
        put_right_crc(&front.header(), frame);
    } else {
        put_at_offset(class, side, HEADER_SIZE, frame);
    }
}
