//! Writes a group of bits in place.
ghost use Rattle.std.specs.Prelude.{◌≡◌, ◌+◌, ◌*◌, ◌^◌, ◌<◌, ◌≤◌, length};
ghost use Rattle.bit_fields.specs.Bits.{bits};
ghost use Rattle.bit_fields.specs.Groups.{with_value, IsGroupIn, IsGroupReached};

use crate::groups::{number_of, set_number, with_group, word_at};

/// Writes the value into the n bits from bit `at` on, at most 32 of them, the most significant bit first;
/// all other bits stay.
pub fn put(bytes: &mut [u8], at: usize, n: u32, value: u32)
    requires few { n ≤ 32 }
    requires room { at + n ≤ 8 * length bytes.old }
    requires fits { value < 2 ^ n }
    requires short { length bytes.old ≤ 2 ^ 28 }
    ensures { bits bytes.new ≡ with_value at n value (bits bytes.old) }
{
    if n > 0 && bytes.len() >= 8 {
        put_in_word(bytes, at, n, value);
    } else {
        let end = at + n as usize;
        put_in_bytes(bytes, at, n, value, (end + 7) / 8);
    }
}

/// Writes the value into the eight bits from bit `at` on; all other bits stay. There have to be at least 16
/// bits from `at` on, since it always writes two bytes.
#[inline]
pub fn put_byte(bytes: &mut [u8], at: usize, value: u8)
    requires room { at + 16 ≤ 8 * length bytes.old }
    requires short { length bytes.old ≤ 2 ^ 28 }
    ensures { bits bytes.new ≡ with_value at 8 value (bits bytes.old) }
{
    put_in_bytes(bytes, at, 8, u32::from(value), at / 8 + 2);
}

/// Writes a group of bits in place, by writing the bytes from the one in which it begins up to but not
/// including byte `last`.
#[inline]
fn put_in_bytes(bytes: &mut [u8], at: usize, n: u32, value: u32, last: usize)
    requires few { n ≤ 32 }
    requires reached { IsGroupReached at n last }
    requires room { last ≤ length bytes.old }
    requires fits { value < 2 ^ n }
    requires short { length bytes.old ≤ 2 ^ 28 }
    ensures { bits bytes.new ≡ with_value at n value (bits bytes.old) }
{
    let end = at + n as usize;
    let low = (8 * last - end) as u32;
    let part = &mut bytes[at / 8..last];
    let window = with_group(number_of(part), n, low, value);
    set_number(part, window);
}

/// Writes a group of bits in place, by writing eight bytes that hold it.
#[inline]
fn put_in_word(bytes: &mut [u8], at: usize, n: u32, value: u32)
    requires some { 1 ≤ n }
    requires group { IsGroupIn bytes.old at n }
    requires long { 8 ≤ length bytes.old }
    requires fits { value < 2 ^ n }
    ensures { bits bytes.new ≡ with_value at n value (bits bytes.old) }
{
    let end = at + n as usize;
    let first = (at / 8).min(bytes.len() - 8);
    let spare = (8 * (first + 8) - end) as u32;
    let window = with_group(word_at(bytes, first), n, spare, value);
    bytes[first..first + 8].copy_from_slice(&window.to_be_bytes());
}
