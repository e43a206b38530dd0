//! The widths in bits of the fields of a version; 0 for a field that it lacks.
ghost use Rattle.std.specs.Prelude.{◌≡◌, ◌≤◌};
ghost use Rattle.side_info.specs.Granule.{compress_width, preflag_width, granule_size};
ghost use Rattle.side_info.specs.Parts.{class_with, front_size};
ghost use Rattle.frame_header.specs.Tables.{side_size_of};

use frame_header::Version;

/// How many bits scalefac_compress has.
#[inline(always)]
pub(crate) fn compress_width(version: Version) -> u32
    ensures width { result ≡ compress_width version }
    ensures most { result ≤ 9 }
{
    match version {
        Version::One => 4,
        Version::Two | Version::TwoFive => 9,
    }
}

/// How many bits preflag has; MPEG-1 alone has it.
#[inline(always)]
pub(crate) fn preflag_width(version: Version) -> u32
    ensures width { result ≡ preflag_width version }
    ensures most { result ≤ 1 }
{
    u32::from(matches!(version, Version::One))
}

/// How many bits one granule and channel has.
#[inline(always)]
pub(crate) fn granule_width(version: Version) -> usize
    ensures { result ≡ granule_size version }
{
    match version {
        Version::One => 59,
        Version::Two | Version::TwoFive => 63,
    }
}

/// How many bits the fields before the granules have.
#[inline(always)]
pub(crate) fn front_size(version: Version, channels: u8) -> usize
    ensures { result ≡ front_size version channels }
{
    match (version, channels == 1) {
        (Version::One, true) => 18,
        (Version::One, false) => 20,
        (Version::Two | Version::TwoFive, true) => 9,
        (Version::Two | Version::TwoFive, false) => 10,
    }
}

/// The length of the side information in bytes.
#[inline(always)]
#[tactic(auto, unfolding(frame_header::specs::Tables::side_size_of))]
pub(crate) fn side_size(version: Version, channels: u8) -> usize
    ensures { result ≡ side_size_of (class_with version 0 channels) }
{
    match (version, channels == 1) {
        (Version::One, true) => 17,
        (Version::One, false) => 32,
        (Version::Two | Version::TwoFive, true) => 9,
        (Version::Two | Version::TwoFive, false) => 17,
    }
}
