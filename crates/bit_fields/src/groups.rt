//! The few bytes around a group of bits, as one number.
ghost use Rattle.std.specs.Prelude.{◌≡◌, ◌+◌, ◌*◌, ◌/◌, ◌%◌, ◌^◌, ◌<◌, ◌≤◌, length, take, drop};
ghost use Rattle.bit_fields.specs.Bits.{bits, bits_of, number};
ghost use Rattle.bit_fields.specs.Groups.{IsGroupIn, IsNumberOf};

/// The number of at most five bytes, the most significant first.
pub(crate) fn number_of(bytes: &[u8]) -> u64
    requires { length bytes.now ≤ 5 }
    ensures { result ≡ number (bits bytes.now) }
{
    let mut window = 0;
    for byte in bytes {
        window = window * 256 + u64::from(*byte);
    }
    window
}

/// Writes the number into the bytes, the most significant byte first.
pub(crate) fn set_number(bytes: &mut [u8], window: u64)
    requires few { length bytes.old ≤ 5 }
    requires fits { window < 2 ^ (8 * length bytes.old) }
    ensures { bits bytes.new ≡ bits_of (8 * length bytes.old) window }
{
    let mut rest = window;
    for i in (0..bytes.len()).rev() {
        bytes[i] = (rest % 256) as u8;
        rest /= 256;
    }
}

/// The number with `value` instead of the n bits above its lowest `low` bits.
#[inline]
pub(crate) fn with_group(window: u64, n: u32, low: u32, value: u32) -> u64
    requires few { n ≤ 32 }
    requires part { low < 64 }
    requires within { n + low ≤ 64 }
    requires fits { value < 2 ^ n }
    ensures { result ≡ (window / 2 ^ (n + low) * 2 ^ n + value) * 2 ^ low + window % 2 ^ low }
{
    let above = window >> low >> n;
    let below = window % (1 << low);
    (((above << n) + u64::from(value)) << low) + below
}

/// The number of eight bytes, the most significant first.
#[inline]
pub(crate) fn word_at(bytes: &[u8], first: usize) -> u64
    requires { first + 8 ≤ length bytes.now }
    ensures { result ≡ number (bits (take 8 (drop first bytes.now))) }
{
    let word = &bytes[first..first + 8];
    u64::from_be_bytes([
        word[0], word[1], word[2], word[3], word[4], word[5], word[6], word[7],
    ])
}

/// The number of a group of bits, by one load of eight bytes that hold it, so there have to be at
/// least eight.
#[inline]
fn number_in_word(bytes: &[u8], at: usize, n: u32) -> u32
    requires some { 1 ≤ n }
    requires group { IsGroupIn bytes.now at n }
    requires long { 8 ≤ length bytes.now }
    ensures { IsNumberOf bytes.now at n result }
{
    let end = at + n as usize;
    let first = (at / 8).min(bytes.len() - 8);
    let spare = 8 * (first + 8) - end;
    ((word_at(bytes, first) >> spare as u32) % (1 << n)) as u32
}

/// The number of a group of bits, from the one to five bytes that it is in.
fn number_in_bytes(bytes: &[u8], at: usize, n: u32) -> u32
    requires { IsGroupIn bytes.now at n }
    ensures { IsNumberOf bytes.now at n result }
{
    let end = at + n as usize;
    let first = at / 8;
    let last = (end + 7) / 8;
    let window = number_of(&bytes[first..last]);
    ((window >> (8 * last - end) as u32) % (1 << n)) as u32
}

/// The number of the n bits from bit `at` on, at most 32 of them, the most significant first.
#[inline]
pub fn number_at(bytes: &[u8], at: usize, n: u32) -> u32
    requires few { n ≤ 32 }
    requires room { at + n ≤ 8 * length bytes.now }
    requires short { length bytes.now ≤ 2 ^ 28 }
    ensures { IsNumberOf bytes.now at n result }
{
    if n > 0 && bytes.len() >= 8 {
        number_in_word(bytes, at, n)
    } else {
        number_in_bytes(bytes, at, n)
    }
}
