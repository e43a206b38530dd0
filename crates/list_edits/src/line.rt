//! A line of text that is put together from its end to its beginning.
ghost use Rattle.std.specs.Prelude.{◌≡◌, ◌+◌, ◌/◌, ◌%◌, ◌<◌, ◌≤◌, [], ◌++◌, length, drop, decimal};
ghost use Rattle.list_edits.specs.Decimals.{two_digits, four_digits};

use itoa::write_digits;
use std::marker::Model;

// In bytes; no line of a listing is longer.
const ROOM: usize = 192;

// The two digits of each number below 100.
static PAIRS: [u8; 200] =
    *b"00010203040506070809101112131415161718192021222324252627282930313233343536373839404142434445464748495051525354555657585960616263646566676869707172737475767778798081828384858687888990919293949596979899";

// The two digits of a number below 100.
#[inline]
fn pair(number: u32) -> [u8; 2]
    requires { number < 100 }
    ensures { result ≡ two_digits number }
{
    let from = number as usize * 2;
    [PAIRS[from], PAIRS[from + 1]]
}

// The hundreds of a number below 10,000 and the rest. Multiplying and shifting takes fewer
// instructions than the code that the compiler emits for dividing an arbitrary number.
#[inline]
fn split(number: u32) -> (u32, u32)
    requires { number < 10000 }
    ensures hundreds { result.0 ≡ number / 100 }
    ensures rest { result.1 ≡ number % 100 }
{
    let hundreds = (number * 5_243) >> 19;
    (hundreds, number - 100 * hundreds)
}

/// A text of at most 192 bytes that grows at its beginning: this way the digits of a number are
/// written where they stay. Contracts see it as its bytes.
#[derive(Drop)]
pub struct Line {
    room: [u8; ROOM],
    front: usize,
}

impl Model for Line {
    ghost use Rattle.std.specs.Prelude.{◌≤◌, ℕ, List, drop};

    ghost Value = { List ℕ };

    ghost view = { λ l. drop l.front l.room };

    ghost invariant = { λ l. l.front ≤ 192 };
}

impl Line {
    /// An empty text.
    pub fn new() -> Line
        ensures { result ≡ [] }
    {
        Line {
            room: [0; ROOM],
            front: ROOM,
        }
    }

    /// Makes the text empty again.
    #[inline]
    pub fn clear(&mut self)
        ensures { self.new ≡ [] }
    {
        self.front = ROOM;
    }

    /// Puts another text before this one.
    #[inline]
    pub fn put(&mut self, text: &[u8])
        requires { length self.old + length text.now ≤ 192 }
        ensures { self.new ≡ text.now ++ self.old }
    {
        let front = self.front - text.len();
        self.room[front..self.front].copy_from_slice(text);
        self.front = front;
    }

    /// Removes bytes from the beginning.
    #[inline]
    fn skip(&mut self, count: usize)
        requires { count ≤ length self.old }
        ensures { self.new ≡ drop count self.old }
    {
        self.front += count;
    }

    /// Puts a text without its first bytes before this one. The text is copied whole, which is
    /// cheaper than copying only the rest if it has four, eight or sixteen bytes.
    #[inline]
    pub(crate) fn put_from(&mut self, start: usize, text: &[u8])
        requires start { start ≤ length text.now }
        requires room { length self.old + length text.now ≤ 192 }
        ensures { self.new ≡ drop start text.now ++ self.old }
    {
        self.put(text);
        self.skip(start);
    }

    /// Puts the two digits of a number below 100 before this text.
    #[inline]
    pub(crate) fn put_pair(&mut self, number: u32)
        requires pair { number < 100 }
        requires room { length self.old + 2 ≤ 192 }
        ensures { self.new ≡ two_digits number ++ self.old }
    {
        self.put(&pair(number));
    }

    /// Puts the four digits of a number below 10,000 before this text.
    #[inline]
    pub(crate) fn put_four(&mut self, number: u32)
        requires four { number < 10000 }
        requires room { length self.old + 4 ≤ 192 }
        ensures { self.new ≡ four_digits number ++ self.old }
    {
        let (hundreds, rest) = split(number);
        self.put_pair(rest);
        self.put_pair(hundreds);
    }

    /// Puts a digit before this text.
    #[inline]
    fn put_digit(&mut self, digit: u32)
        requires digit { digit < 10 }
        requires room { length self.old + 1 ≤ 192 }
        ensures { self.new ≡ decimal digit ++ self.old }
    {
        self.put(&[b'0' + digit as u8]);
    }

    /// Puts the decimal digits of a number below 10,000 before this text.
    #[inline]
    fn put_short(&mut self, number: u32)
        requires short { number < 10000 }
        requires room { length self.old + 4 ≤ 192 }
        ensures { self.new ≡ decimal number ++ self.old }
    {
        if number >= 100 {
            let (hundreds, rest) = split(number);
            self.put_pair(rest);
            if number >= 1_000 {
                self.put_pair(hundreds);
                return;
            }
            self.put_digit(hundreds);
            return;
        }
        if number >= 10 {
            self.put_pair(number);
            return;
        }
        self.put_digit(number);
    }

    /// Puts the decimal digits of any number before this text.
    #[inline(never)]
    fn put_long(&mut self, number: u64)
        requires { length self.old + 20 ≤ 192 }
        ensures { self.new ≡ decimal number ++ self.old }
    {
        self.front = write_digits(number, &mut self.room, self.front);
    }

    /// Puts the decimal digits of a number before this text.
    #[inline]
    pub fn put_number(&mut self, number: u64)
        requires { length self.old + 20 ≤ 192 }
        ensures number { self.new ≡ decimal number ++ self.old }
        ensures few { length self.new ≤ length self.old + 20 }
    {
        if number < 10_000 {
            self.put_short(number as u32);
        } else {
            self.put_long(number);
        }
    }

    /// Puts a text before this one, and the decimal digits of a number before that.
    #[inline]
    pub fn put_counted(&mut self, number: u64, text: &[u8])
        requires { length self.old + length text.now + 20 ≤ 192 }
        ensures number { self.new ≡ decimal number ++ (text.now ++ self.old) }
        ensures few { length self.new ≤ length self.old + length text.now + 20 }
    {
        self.put(text);
        self.put_number(number);
    }

    /// The text.
    #[inline]
    pub fn bytes(&self) -> &[u8]
        ensures { result.now ≡ self.now }
    {
        &self.room[self.front..]
    }
}
