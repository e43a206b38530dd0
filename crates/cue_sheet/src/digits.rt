//! Numbers as decimal digits, steps of gain, and the place of a byte in a text.
ghost use Rattle.std.specs.Prelude.{◌≡◌, ◌≤◌, ◌==◌, IfSome, length, unsigned_abs};
ghost use Rattle.std.specs.List.{position_or_len};
ghost use Rattle.cue_sheet.specs.Digits.{number_in, size_in, steps_in};

/// The number that these digits spell. `None` exactly where they are fewer than `least` or more than
/// `most`, not all of them are digits, or the number is greater than `greatest`.
pub fn read_number(digits: &[u8], least: usize, most: usize, greatest: u32) -> Option<u32>
    requires { most ≤ 10 }
    ensures number { result ≡ number_in least most greatest digits.now }
    ensures most { IfSome result (λ number. number ≤ greatest) }
{
    if digits.len() < least || digits.len() > most {
        return None;
    }
    let mut number: u64 = 0;
    for digit in digits {
        if !digit.is_ascii_digit() {
            return None;
        }
        number = number * 10 + u64::from(*digit - b'0');
    }
    if number <= u64::from(greatest) {
        Some(number as u32)
    } else {
        None
    }
}

/// One to three digits of a number up to 255.
fn read_size(digits: &[u8]) -> Option<i16>
    ensures size { result ≡ size_in digits.now }
    ensures most { IfSome result (λ size. unsigned_abs size ≤ 255) }
{
    let size = read_number(digits, 1, 3, 255)?;
    Some(size as i16)
}

/// The steps that a word says, from -255 to 255: one to three digits, after `+` or `-` or alone. `None`
/// for every other word.
pub fn read_steps(word: &[u8]) -> Option<i16>
    ensures steps { result ≡ steps_in word.now }
    ensures most { IfSome result (λ steps. unsigned_abs steps ≤ 255) }
{
    match word {
        [] => None,
        [b'+', digits @ ..] => read_size(digits),
        [b'-', digits @ ..] => Some(-read_size(digits)?),
        _ => read_size(word),
    }
}

/// The place of the first such byte, or the length of the text where there is none.
pub(crate) fn position_of(text: &[u8], byte: u8) -> usize
    ensures place { result ≡ position_or_len (λ b. b == byte) text.now }
    ensures within { result ≤ length text.now }
{
    let mut place = 0;
    while place < text.len() && text[place] != byte {
        place += 1;
    }
    place
}
