//! Whether the fields of side information are within the bits that a class has for them.
ghost use Rattle.std.specs.Prelude.{◌≡◌, ℕ, ◌^◌, ◌<◌, ◌↔◌, IsTrue, MatchBool, length, slice_index};
ghost use Rattle.side_info.specs.Granule.{no_granule, GranuleFits};
ghost use Rattle.side_info.specs.Side.{front_width, has_granule, FieldsWithin, PairFits};

use crate::granule::{Granule, NO_GRANULE};
use crate::side::Side;
use frame_header::{Class, Version};

/// The bounds below which the fields before the granules have to be; 1 for a field that the class lacks.
fn front_limits(class: Class) -> [u16; 4]
    ensures { (field : ℕ) → field < 4 → slice_index result field ≡ 2 ^ front_width class field }
{
    match (class.version, class.channels == 1) {
        (Version::One, true) => [512, 32, 16, 1],
        (Version::One, false) => [512, 8, 16, 16],
        (Version::Two | Version::TwoFive, true) => [256, 2, 1, 1],
        (Version::Two | Version::TwoFive, false) => [256, 4, 1, 1],
    }
}

/// Whether the fields before the granules are within their bits.
pub(crate) fn front_fits(side: &Side, class: Class) -> bool
    ensures { IsTrue result ↔ FieldsWithin class side.now }
{
    let limits = front_limits(class);
    side.main_data_begin < limits[0]
        && u16::from(side.private_bits) < limits[1]
        && u16::from(side.scfsi[0]) < limits[2]
        && u16::from(side.scfsi[1]) < limits[3]
}

/// Whether the class has this granule and channel.
fn has_granule(class: Class, granule: u8, channel: u8) -> bool
    ensures { result ≡ has_granule class granule channel }
{
    let granules = match class.version {
        Version::One => 2,
        Version::Two | Version::TwoFive => 1,
    };
    granule < granules && channel < class.channels
}

/// Whether a granule's fields are within their bits, or all 0 where the class lacks it.
fn granule_fits(granule: &Granule, version: Version, has: bool) -> bool
    ensures { IsTrue result ↔ MatchBool has (GranuleFits version granule.now)
        (granule.now ≡ no_granule) }
{
    if has {
        granule.fits(version)
    } else {
        *granule == NO_GRANULE
    }
}

/// Whether the fields of both channels of a granule are within their bits, or all 0 where the class
/// lacks the channel.
pub(crate) fn pair_fits(pair: &[Granule; 2], class: Class, granule: u8) -> bool
    // Stated for an array inside an array, whose length the caller doesn't know.
    ensures two { length pair.now ≡ 2 }
    ensures fits { IsTrue result ↔ PairFits class granule pair.now }
{
    granule_fits(&pair[0], class.version, has_granule(class, granule, 0))
        && granule_fits(&pair[1], class.version, has_granule(class, granule, 1))
}
