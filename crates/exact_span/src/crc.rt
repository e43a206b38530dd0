//! The CRC of an Info frame.
ghost use Rattle.std.specs.Prelude.{◌≡◌};
ghost use Rattle.exact_span.specs.TagWord.{arc_bit, arc_byte, arc_of};

/// x^16 + x^15 + x^2 + 1 without its highest power, the least significant bit first.
const POLYNOMIAL: u16 = 0xa001;

/// One bit further on.
#[tactic(auto, unfolding(crate::specs::TagWord::arc_bit))]
fn arc_bit(word: u16) -> u16
    ensures { result ≡ arc_bit word }
{
    if word % 2 == 1 {
        (word / 2) ^ POLYNOMIAL
    } else {
        word / 2
    }
}

/// One byte further on.
fn arc_byte(word: u16, byte: u8) -> u16
    ensures { result ≡ arc_byte word byte }
{
    let mut next = word ^ u16::from(byte);
    for _ in 0..8u32 {
        next = arc_bit(next);
    }
    next
}

/// The CRC of 16 bits of these bytes, by x^16 + x^15 + x^2 + 1 with the least significant bit first
/// and not inverted (CRC-16/ARC), starting from `start`. Starting from 0 it is 0xbb3d for the nine
/// bytes `123456789`.
pub fn arc(start: u16, bytes: &[u8]) -> u16
    ensures { result ≡ arc_of start bytes.now }
{
    bytes.iter().fold(start, |word, byte| arc_byte(word, *byte))
}
