//! Reads successive groups of bits as numbers.
ghost use Rattle.std.specs.Prelude.{◌≡◌, ◌^◌, ◌≤◌, length};
ghost use Rattle.bit_fields.specs.Bits.{bits};
ghost use Rattle.bit_fields.specs.Cursor.{TakeAnswer};

use crate::groups::number_at;
use std::marker::Model;

/// A place among the bits of a byte slice, the most significant bit of each byte first.
#[derive(Debug, Drop)]
pub struct Bits<'a> {
    bytes: &'a [u8],
    place: usize,
}

impl<'a> Model for Bits<'a> {
    ghost use Rattle.std.specs.Prelude.{◌*◌, ◌^◌, ◌≤◌, length, drop};
    ghost use Rattle.bit_fields.specs.Bits.{bits};
    ghost use Rattle.bit_fields.specs.Cursor.{Cursor};

    ghost Value = { Cursor };

    ghost view = { λ b. record { place = b.place; left = drop b.place (bits b.bytes.now) } };

    ghost invariant = { λ b. (length b.bytes.now ≤ 2 ^ 28) × (b.place ≤ 8 * length b.bytes.now) };
}

impl<'a> Bits<'a> {
    /// Begins at the first bit of the bytes; there have to be at most 2^28 bytes.
    pub fn new(bytes: &'a [u8]) -> Self
        requires { length bytes.now ≤ 2 ^ 28 }
        ensures place { result.place ≡ 0 }
        ensures left { result.left ≡ bits bytes.now }
    {
        Bits { bytes, place: 0 }
    }

    /// How many bits have been taken.
    pub fn place(&self) -> usize
        ensures { result ≡ self.now.place }
    {
        self.place
    }

    /// How many bits are left.
    pub fn left(&self) -> usize
        ensures { result ≡ length self.now.left }
    {
        8 * self.bytes.len() - self.place
    }

    /// The number of the next n bits, at most 32 of them, the most significant first. `None` exactly
    /// where fewer are left; then the place doesn't change.
    pub fn take(&mut self, n: u32) -> Option<u32>
        requires { n ≤ 32 }
        ensures { TakeAnswer n self.old self.new result }
    {
        if self.left() < n as usize {
            return None;
        }
        let value = number_at(self.bytes, self.place, n);
        self.place += n as usize;
        Some(value)
    }
}
