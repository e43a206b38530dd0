//! What the bytes of a frame say before its header is read.
ghost use Rattle.std.specs.Prelude.{◌≡◌, ◌≤◌, Ok, true, false, length};
ghost use Rattle.frame_header.specs.Fields.{HeaderFields};
ghost use Rattle.frame_header.specs.Tables.{class_of};
ghost use Rattle.sync_survey.specs.Items.{header_front, item_front};
ghost use Rattle.sync_survey.specs.Start.{is_anchor};
ghost use Rattle.salvage.specs.RawHeader.{raw_frame_length, raw_channels, has_raw_rate, may_follow_header, raw_side_size, may_begin_block, may_begin_text};
ghost use Rattle.salvage.specs.Steps.{IsUnusable};

use side_info::{check_word_of_bytes, stored_crc};

/// The length in bytes of a frame without padding: a row of 64 for each value of the two bits of
/// its version, by the six bits of its bit rate and its sampling frequency; any number where no
/// header has these.
// `Class::length_of` has them too. A search needs a length at every place where a header may begin,
// and this table gives it by two bytes, before a header is read.
static LENGTHS: [u16; 256] = [
    52, 48, 72, 0, 52, 48, 72, 0, 104, 96, 144, 0, 156, 144, 216, 0, 208, 192, 288, 0, 261, 240,
    360, 0, 313, 288, 432, 0, 365, 336, 504, 0, 417, 384, 576, 0, 522, 480, 720, 0, 626, 576, 864,
    0, 731, 672, 1008, 0, 835, 768, 1152, 0, 940, 864, 1296, 0, 1044, 960, 1440, 0, 0, 0, 0, 0, 52,
    48, 72, 0, 52, 48, 72, 0, 104, 96, 144, 0, 156, 144, 216, 0, 208, 192, 288, 0, 261, 240, 360,
    0, 313, 288, 432, 0, 365, 336, 504, 0, 417, 384, 576, 0, 522, 480, 720, 0, 626, 576, 864, 0,
    731, 672, 1008, 0, 835, 768, 1152, 0, 940, 864, 1296, 0, 1044, 960, 1440, 0, 0, 0, 0, 0, 26,
    24, 36, 0, 26, 24, 36, 0, 52, 48, 72, 0, 78, 72, 108, 0, 104, 96, 144, 0, 130, 120, 180, 0,
    156, 144, 216, 0, 182, 168, 252, 0, 208, 192, 288, 0, 261, 240, 360, 0, 313, 288, 432, 0, 365,
    336, 504, 0, 417, 384, 576, 0, 470, 432, 648, 0, 522, 480, 720, 0, 0, 0, 0, 0, 104, 96, 144, 0,
    104, 96, 144, 0, 130, 120, 180, 0, 156, 144, 216, 0, 182, 168, 252, 0, 208, 192, 288, 0, 261,
    240, 360, 0, 313, 288, 432, 0, 365, 336, 504, 0, 417, 384, 576, 0, 522, 480, 720, 0, 626, 576,
    864, 0, 731, 672, 1008, 0, 835, 768, 1152, 0, 1044, 960, 1440, 0, 0, 0, 0, 0,
];

/// The length in bytes of a frame whose header has these second and third bytes; any number if none
/// has.
pub(crate) fn raw_frame_length(second: u8, third: u8) -> usize
    ensures length { result ≡ raw_frame_length second third }
    ensures most { result ≤ 65536 }
{
    let row = (second / 8 % 4) as usize * 64;
    LENGTHS[row + (third / 4) as usize] as usize + (third / 2 % 2) as usize
}

/// The number of channels that the fourth byte of a header stands for.
pub(crate) fn raw_channels(fourth: u8) -> u8
    ensures { result ≡ raw_channels fourth }
{
    if fourth / 64 == 3 { 1 } else { 2 }
}

/// Whether the third byte of a header has the bit rate index of a frame.
pub(crate) fn has_raw_rate(third: u8) -> bool
    ensures { result ≡ has_raw_rate third }
{
    third / 16 != 0 && third / 16 != 15
}

/// Whether a header of the same class as the one in `own` may be at the front of `next`.
#[tactic(auto, unfolding(crate::specs::RawHeader::may_follow_header))]
fn may_follow_header(own: &[u8], next: &[u8]) -> bool
    requires own { 4 ≤ length own.now }
    requires next { 4 ≤ length next.now }
    ensures { result ≡ may_follow_header own.now next.now }
{
    next[0] == 0xff
        && next[1] / 2 == own[1] / 2
        && next[2] / 4 % 4 == own[2] / 4 % 4
        && has_raw_rate(next[2])
        && raw_channels(next[3]) == raw_channels(own[3])
}

/// Whether a block may begin with these three bytes: with `ID3`, `TAG` or `APE`.
fn may_begin_block(first: u8, second: u8, third: u8) -> bool
    ensures { result ≡ may_begin_block first second third }
{
    match first {
        b'I' => second == b'D' && third == b'3',
        b'T' => second == b'A' && third == b'G',
        b'A' => second == b'P' && third == b'E',
        _ => false,
    }
}

/// Whether `next`, which is at the end of a frame with the header in `own`, may begin with its
/// anchor.
pub(crate) fn may_anchor(own: &[u8], next: &[u8]) -> bool
    requires own { 4 ≤ length own.now }
    requires next { 4 ≤ length next.now }
    ensures { result ≡ false → (h : HeaderFields) → header_front own.now ≡ Ok h
        → is_anchor (class_of h) (item_front next.now) ≡ false }
{
    may_follow_header(own, next) || may_begin_block(next[0], next[1], next[2])
}

/// The size in bytes of the side information of a frame whose header has these second and fourth
/// bytes.
// As `Class::side_size`, but by the bytes alone, before a header is read.
fn raw_side_size(second: u8, fourth: u8) -> usize
    ensures size { result ≡ raw_side_size second fourth }
    ensures most { result ≤ 32 }
{
    if second / 8 % 4 == 3 {
        if raw_channels(fourth) == 1 { 17 } else { 32 }
    } else if raw_channels(fourth) == 1 {
        9
    } else {
        17
    }
}

/// Whether `Xing` or `Info` may begin with this byte.
fn may_begin_text(first: u8) -> bool
    ensures { result ≡ may_begin_text first }
{
    first == b'X' || first == b'I'
}

/// Whether the frame of `size` bytes that these bytes may begin with is protected, and they show
/// that its check word is wrong and that it is no head.
// A function of its own, so that a search keeps in registers what it needs at each place.
#[inline(never)]
pub(crate) fn has_wrong_crc(own: &[u8], size: usize) -> bool
    requires own { 4 ≤ length own.now }
    requires within { size ≤ length own.now }
    ensures { result ≡ true → IsUnusable own.now }
{
    let side = raw_side_size(own[1], own[3]);
    if own[1] % 2 == 1 || size <= 6 + side {
        return false;
    }
    if may_begin_text(own[4 + side]) || may_begin_text(own[6 + side]) {
        return false;
    }
    stored_crc(own) != check_word_of_bytes(&own[..4], &own[6..6 + side])
}
