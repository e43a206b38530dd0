//! The bit rate of a frame as it is in its line.
ghost use Rattle.std.specs.Prelude.{◌≡◌, ◌+◌, ◌-◌, ◌≤◌, ◌++◌, length, drop, slice_index};
ghost use Rattle.frame_header.specs.Tables.{rates, rate_of};
ghost use Rattle.list_edits.specs.Listing.{rate_text};

use crate::line::Line;
use frame_header::{Class, Slot, Version};

// The text of a bit rate in kbit/s with its colon and its unit, after as many spaces as fill it up
// to sixteen bytes.
struct RateText {
    text: [u8; 16],
    spaces: usize,
}

macro_rules! rate_text {
    ($spaces:literal $text:literal) => {
        RateText {
            text: *$text,
            spaces: $spaces,
        }
    };
}

// The texts for the indexes 1 to 14 (ISO/IEC 11172-3 and 13818-3, 2.4.2.3).
static MPEG_1_TEXTS: [RateText; 14] = [
    rate_text!(5 b"     : 32 kbit/s"),
    rate_text!(5 b"     : 40 kbit/s"),
    rate_text!(5 b"     : 48 kbit/s"),
    rate_text!(5 b"     : 56 kbit/s"),
    rate_text!(5 b"     : 64 kbit/s"),
    rate_text!(5 b"     : 80 kbit/s"),
    rate_text!(5 b"     : 96 kbit/s"),
    rate_text!(4 b"    : 112 kbit/s"),
    rate_text!(4 b"    : 128 kbit/s"),
    rate_text!(4 b"    : 160 kbit/s"),
    rate_text!(4 b"    : 192 kbit/s"),
    rate_text!(4 b"    : 224 kbit/s"),
    rate_text!(4 b"    : 256 kbit/s"),
    rate_text!(4 b"    : 320 kbit/s"),
];

static MPEG_2_TEXTS: [RateText; 14] = [
    rate_text!(6 b"      : 8 kbit/s"),
    rate_text!(5 b"     : 16 kbit/s"),
    rate_text!(5 b"     : 24 kbit/s"),
    rate_text!(5 b"     : 32 kbit/s"),
    rate_text!(5 b"     : 40 kbit/s"),
    rate_text!(5 b"     : 48 kbit/s"),
    rate_text!(5 b"     : 56 kbit/s"),
    rate_text!(5 b"     : 64 kbit/s"),
    rate_text!(5 b"     : 80 kbit/s"),
    rate_text!(5 b"     : 96 kbit/s"),
    rate_text!(4 b"    : 112 kbit/s"),
    rate_text!(4 b"    : 128 kbit/s"),
    rate_text!(4 b"    : 144 kbit/s"),
    rate_text!(4 b"    : 160 kbit/s"),
];

// The text of the bit rate for this index.
#[inline]
fn spaced_text(version: Version, slot: Slot) -> &'static RateText
    ensures text { drop result.now.spaces result.now.text
        ≡ rate_text (slice_index (rates version) (slot.rate_index - 1)) }
    ensures few { result.now.spaces ≤ 16 }
    ensures size { length result.now.text ≡ 16 }
{
    let index = slot.rate_index as usize - 1;
    match version {
        Version::One => &MPEG_1_TEXTS[index],
        Version::Two | Version::TwoFive => &MPEG_2_TEXTS[index],
    }
}

/// Puts the bit rate of a frame in kbit/s before a line, between a colon and its unit.
#[tactic(auto, unfolding(frame_header::specs::Tables::rate_of))]
#[inline]
pub(crate) fn put_rate(line: &mut Line, class: Class, slot: Slot)
    requires { length line.old + 16 ≤ 192 }
    ensures rate { line.new ≡ rate_text (rate_of class slot) ++ line.old }
    ensures few { length line.new ≤ length line.old + 16 }
{
    let rate = spaced_text(class.version, slot);
    // The compiler sees that a copy doesn't overlap the line.
    let text = rate.text;
    line.put_from(rate.spaces, &text);
}
