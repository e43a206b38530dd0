//! Joins the fields of side information into words, and writes them.
ghost use Rattle.std.specs.Prelude.{◌≡◌, ◌^◌, ◌<◌, ◌++◌, All, length, flat_map};
ghost use Rattle.bit_fields.specs.Bits.{bits, bits_of};
ghost use Rattle.frame_header.specs.Tables.{side_size_of};
ghost use Rattle.side_info.specs.Granule.{granule_bits, granule_size, GranuleFits};
ghost use Rattle.side_info.specs.Parts.{AreChannels, AreWidths, PairsFit, class_with, front_size, front_bits, pair_bits, second_pair_bits};
ghost use Rattle.side_info.specs.Side.{FrontFits};

use crate::granule::Granule;
use crate::side::Side;
use crate::widths::{compress_width, preflag_width};
use bit_fields::{set_low_byte, set_word, spanned};
use frame_header::Version;

/// The fields before the granules as one number.
#[inline]
pub(crate) fn front_word(side: &Side, version: Version, channels: u8) -> u64
    requires { FrontFits version channels side.now }
    ensures { bits_of (front_size version channels) result
        ≡ front_bits version channels side.now }
{
    let begin = u64::from(side.main_data_begin);
    let private_bits = u64::from(side.private_bits);
    let first = u64::from(side.scfsi[0]);
    let second = u64::from(side.scfsi[1]);
    match (version, channels == 1) {
        (Version::One, true) => begin * 512 + private_bits * 16 + first,
        (Version::One, false) => begin * 2048 + private_bits * 256 + first * 16 + second,
        (Version::Two | Version::TwoFive, true) => begin * 2 + private_bits,
        (Version::Two | Version::TwoFive, false) => begin * 4 + private_bits,
    }
}

/// The fields of one granule and channel as one number.
#[inline]
fn granule_word(granule: &Granule, version: Version) -> u64
    requires fits { GranuleFits version granule.now }
    ensures word { bits_of (granule_size version) result ≡ granule_bits version granule.now }
    ensures below { result < 2 ^ granule_size version }
{
    let first = u64::from(granule.part2_3_length) * (1 << 17)
        + u64::from(granule.big_values) * (1 << 8)
        + u64::from(granule.global_gain);
    let middle = u64::from(granule.scalefac_compress) * (1 << 23)
        + u64::from(granule.window_switching) * (1 << 22)
        + u64::from(granule.detail);
    let last = u64::from(granule.preflag) * 4
        + u64::from(granule.scalefac_scale) * 2
        + u64::from(granule.count1table_select);
    let upper = first * (1 << (compress_width(version) + 23)) + middle;
    upper * (1 << (preflag_width(version) + 2)) + last
}

/// Writes the fields before the granules, of 9 bits, and one granule of 63.
#[inline]
fn put_one(front: u64, granule: u64, bytes: &mut [u8])
    requires fits { granule < 2 ^ 63 }
    requires room { length bytes.old ≡ 9 }
    ensures { bits bytes.new ≡ bits_of 9 front ++ bits_of 63 granule }
{
    set_word(bytes, 0, spanned(front, 9, granule, 8));
    set_low_byte(bytes, 8, granule);
}

/// Writes the fields before the granules, of `width` bits, and two granules of `size` bits.
#[inline]
fn put_two(front: u64, width: u32, first: u64, second: u64, size: u32, bytes: &mut [u8])
    requires widths { AreWidths width size }
    requires first { first < 2 ^ size }
    requires second { second < 2 ^ size }
    requires room { length bytes.old ≡ 17 }
    ensures { bits bytes.new ≡ bits_of width front ++ (bits_of size first ++ bits_of size second) }
{
    let left = size + width - 64;
    set_word(bytes, 0, spanned(front, width, first, left));
    set_word(bytes, 8, spanned(first, left, second, 8));
    set_low_byte(bytes, 16, second);
}

/// Writes the fields before the granules, of 20 bits, and four granules of 59.
#[inline]
fn put_four(front: u64, granules: [u64; 4], bytes: &mut [u8])
    requires fits { All (λ granule. granule < 2 ^ 59) granules }
    requires room { length bytes.old ≡ 32 }
    ensures { bits bytes.new ≡ bits_of 20 front ++ flat_map (bits_of 59) granules }
{
    let first = granules[0];
    let second = granules[1];
    let third = granules[2];
    let fourth = granules[3];
    set_word(bytes, 0, spanned(front, 20, first, 15));
    set_word(bytes, 8, spanned(first, 15, second, 10));
    set_word(bytes, 16, spanned(second, 10, third, 5));
    set_word(bytes, 24, spanned(third, 5, fourth, 0));
}

/// Writes the fields before the granules and the channels of each granule that the version has, over all
/// the bytes.
pub(crate) fn write_granules(
    front: u64,
    first: &[Granule; 2],
    second: &[Granule; 2],
    version: Version,
    channels: u8,
    bytes: &mut [u8],
)
    requires channels { AreChannels channels }
    requires fits { PairsFit version channels first.now second.now }
    requires size { length bytes.old ≡ side_size_of (class_with version 0 channels) }
    // Stated for arrays inside an array, whose lengths the caller doesn't know.
    ensures two { length first.now ≡ 2 }
    ensures second_two { length second.now ≡ 2 }
    ensures written { bits bytes.new
        ≡ (bits_of (front_size version channels) front ++ pair_bits version channels first.now)
        ++ second_pair_bits version channels second.now }
{
    match (version, channels == 1) {
        (Version::One, true) => {
            let granule = granule_word(&first[0], Version::One);
            let last = granule_word(&second[0], Version::One);
            put_two(front, 18, granule, last, 59, bytes);
        }
        (Version::One, false) => {
            let granules = [
                granule_word(&first[0], Version::One),
                granule_word(&first[1], Version::One),
                granule_word(&second[0], Version::One),
                granule_word(&second[1], Version::One),
            ];
            put_four(front, granules, bytes);
        }
        (Version::Two | Version::TwoFive, true) => {
            put_one(front, granule_word(&first[0], version), bytes);
        }
        (Version::Two | Version::TwoFive, false) => {
            let granule = granule_word(&first[0], version);
            let last = granule_word(&first[1], version);
            put_two(front, 10, granule, last, 63, bytes);
        }
    }
}
