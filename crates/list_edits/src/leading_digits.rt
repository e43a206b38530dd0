//! The leading digits that a number has in common with the one before it.
ghost use Rattle.std.specs.Prelude.{◌≡◌, ◌+◌, ◌<◌, ◌≤◌, ◌^◌, ◌++◌, length, decimal};

use crate::line::Line;
use itoa::write_digits;
use std::marker::Model;

/// The decimal digits of a number from 1 to 10^14 - 1, kept as text. Where numbers rise by little,
/// all digits but the last few are mostly those of the number before. Contracts see the number.
#[derive(Drop)]
pub(crate) struct LeadingDigits {
    number: u64,
    text: [u8; 16],
    start: usize,
}

impl Model for LeadingDigits {
    ghost use Rattle.std.specs.Prelude.{◌≡◌, ◌≤◌, ◌<◌, ◌^◌, ℕ, drop, decimal};

    ghost Value = { ℕ };

    ghost view = { λ d. d.number };

    ghost invariant = { λ d. (d.start ≤ 16) × (drop d.start d.text ≡ decimal d.number)
        × (0 < d.number) × (d.number < 10 ^ 14) };
}

impl LeadingDigits {
    /// The digits of this number.
    pub(crate) fn of(number: u64) -> LeadingDigits
        requires some { 0 < number }
        requires few { number < 10 ^ 14 }
        ensures { result ≡ number }
    {
        let mut text = [0; 16];
        let start = write_digits(number, &mut text, 16);
        LeadingDigits {
            number,
            text,
            start,
        }
    }

    /// Puts the digits before a line.
    #[inline]
    fn put_before(&self, line: &mut Line)
        requires { length line.old + 16 ≤ 192 }
        ensures { line.new ≡ decimal self.now ++ line.old }
    {
        // The compiler sees that a copy doesn't overlap the line.
        let text = self.text;
        line.put_from(self.start, &text);
    }

    // Keeps the digits of this number, if it is in the range.
    #[inline(never)]
    fn keep(&mut self, number: u64) {
        if 0 < number && number < 100_000_000_000_000 {
            *self = LeadingDigits::of(number);
        }
    }

    /// Puts the decimal digits of a number before a line: the last two, and the others from the
    /// text if they are kept there. If they aren't, they are kept from then on.
    #[inline(always)]
    pub(crate) fn put_by_hundreds(&mut self, number: u64, line: &mut Line)
        requires { length line.old + 20 ≤ 192 }
        ensures number { line.new ≡ decimal number ++ line.old }
        ensures few { length line.new ≤ length line.old + 20 }
    {
        let behind = number.wrapping_sub(self.number * 100);
        if behind < 100 {
            line.put_pair(behind as u32);
            self.put_before(line);
            return;
        }
        line.put_number(number);
        self.keep(number / 100);
    }

    /// As `put_by_hundreds`, with the last four digits instead of two.
    #[inline(always)]
    pub(crate) fn put_by_myriads(&mut self, number: u64, line: &mut Line)
        requires { length line.old + 20 ≤ 192 }
        ensures number { line.new ≡ decimal number ++ line.old }
        ensures few { length line.new ≤ length line.old + 20 }
    {
        let behind = number.wrapping_sub(self.number * 10_000);
        if behind < 10_000 {
            line.put_four(behind as u32);
            self.put_before(line);
            return;
        }
        line.put_number(number);
        self.keep(number / 10_000);
    }
}
