//! Reads the fields of side information.
ghost use Rattle.std.specs.Prelude.{◌≡◌, ◌+◌, ◌*◌, ◌^◌, ◌<◌, ◌≤◌, [], ◌∷◌, length, drop};
ghost use Rattle.bit_fields.specs.Bits.{bits};
ghost use Rattle.bit_fields.specs.Groups.{numbers_at};
ghost use Rattle.frame_header.specs.Tables.{granules_of};
ghost use Rattle.side_info.specs.Granule.{granule_at, granule_size};
ghost use Rattle.side_info.specs.Parts.{AreChannels, AreFrontWidths, front_of_numbers, front_at, front_size, pair_at, second_pair_at};

use crate::front::Front;
use crate::granule::{Granule, NO_GRANULE};
use crate::widths::{compress_width, granule_width, preflag_width};
use bit_fields::number_at;
use frame_header::Version;

/// The fields before the granules.
#[inline(always)]
pub(crate) fn read_front(version: Version, channels: u8, bytes: &[u8]) -> Front
    requires enough { front_size version channels ≤ 8 * length bytes.now }
    requires short { length bytes.now ≤ 2 ^ 28 }
    ensures { result ≡ front_at version channels (bits bytes.now) }
{
    match (version, channels == 1) {
        (Version::One, true) => front_with(bytes, 9, 5, 4, 0),
        (Version::One, false) => front_with(bytes, 9, 3, 4, 4),
        (Version::Two | Version::TwoFive, true) => front_with(bytes, 8, 1, 0, 0),
        (Version::Two | Version::TwoFive, false) => front_with(bytes, 8, 2, 0, 0),
    }
}

/// The fields before the granules, by their widths in bits: the widths of main_data_begin, of the private
/// bits and of the scfsi of each channel.
#[inline(always)]
fn front_with(bytes: &[u8], begin: u32, private_bits: u32, first: u32, second: u32) -> Front
    requires widths { AreFrontWidths begin private_bits first second }
    requires enough { begin + private_bits + first + second ≤ 8 * length bytes.now }
    requires short { length bytes.now ≤ 2 ^ 28 }
    ensures { result ≡ front_of_numbers (numbers_at (begin ∷ private_bits ∷ first ∷ second ∷ [])
        (bits bytes.now)) }
{
    let fields = number_at(bytes, 0, begin + private_bits + first + second);
    let above_second = fields >> second;
    let above_first = above_second >> first;
    Front {
        main_data_begin: (above_first >> private_bits) as u16,
        private_bits: (above_first % (1 << private_bits)) as u8,
        scfsi: [
            (above_second % (1 << first)) as u8,
            (fields % (1 << second)) as u8,
        ],
    }
}

/// Reads the granule and channel whose side information begins at bit `at`.
#[inline(always)]
fn read_granule(version: Version, bytes: &[u8], at: usize) -> Granule
    requires enough { at + granule_size version ≤ 8 * length bytes.now }
    requires short { length bytes.now ≤ 2 ^ 28 }
    ensures { result ≡ granule_at version (drop at (bits bytes.now)) }
{
    let compress = compress_width(version);
    let first = number_at(bytes, at, 29);
    let middle = number_at(bytes, at + 29, compress + 23);
    let last = number_at(
        bytes,
        at + 52 + compress as usize,
        preflag_width(version) + 2,
    );
    Granule {
        detail: middle % (1 << 22),
        part2_3_length: (first >> 17) as u16,
        big_values: ((first >> 8) % 512) as u16,
        scalefac_compress: (middle >> 23) as u16,
        global_gain: (first % 256) as u8,
        window_switching: (middle >> 22) % 2 == 1,
        preflag: (last >> 2) % 2 == 1,
        scalefac_scale: (last >> 1) % 2 == 1,
        count1table_select: last % 2 == 1,
    }
}

/// Reads the channels of the granule whose side information begins at bit `at` into the pair.
// Each field is stored as it is read, so that few of them wait in registers.
#[inline(always)]
pub(crate) fn read_pair(
    version: Version,
    channels: u8,
    bytes: &[u8],
    at: usize,
    pair: &mut [Granule; 2],
)
    requires channels { AreChannels channels }
    requires enough { at + channels * granule_size version ≤ 8 * length bytes.now }
    requires short { length bytes.now ≤ 2 ^ 28 }
    ensures { pair.new ≡ pair_at version channels (drop at (bits bytes.now)) }
{
    pair[0] = read_granule(version, bytes, at);
    if channels == 1 {
        pair[1] = NO_GRANULE;
        return;
    }
    pair[1] = read_granule(version, bytes, at + granule_width(version));
}

/// Reads the channels of the second granule into the pair, where the version has one.
#[inline(always)]
pub(crate) fn read_second(
    version: Version,
    channels: u8,
    bytes: &[u8],
    at: usize,
    pair: &mut [Granule; 2],
)
    requires channels { AreChannels channels }
    requires enough { granules_of version ≡ 2
        → at + channels * granule_size version ≤ 8 * length bytes.now }
    requires short { length bytes.now ≤ 2 ^ 28 }
    ensures { pair.new ≡ second_pair_at version channels (drop at (bits bytes.now)) }
{
    match version {
        Version::One => read_pair(version, channels, bytes, at, pair),
        Version::Two | Version::TwoFive => *pair = [NO_GRANULE, NO_GRANULE],
    }
}
