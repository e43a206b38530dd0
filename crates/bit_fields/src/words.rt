//! 64 bits at a time, written in place as eight bytes.
ghost use Rattle.std.specs.Prelude.{◌≡◌, ◌+◌, ◌-◌, ◌*◌, ◌/◌, ◌^◌, ◌<◌, ◌≤◌, ◌++◌, length};
ghost use Rattle.bit_fields.specs.Bits.{bits, bits_of};
ghost use Rattle.bit_fields.specs.Groups.{with_value};

/// Writes the word into the eight bytes from this place on, the most significant byte first; all other bytes
/// stay.
#[inline]
pub fn set_word(bytes: &mut [u8], place: usize, word: u64)
    requires { place + 8 ≤ length bytes.old }
    ensures { bits bytes.new ≡ with_value (8 * place) 64 word (bits bytes.old) }
{
    bytes[place..place + 8].copy_from_slice(&word.to_be_bytes());
}

/// Writes the lowest eight bits of the word into the byte at this place; all other bytes stay.
#[inline]
pub fn set_low_byte(bytes: &mut [u8], place: usize, word: u64)
    requires { place < length bytes.old }
    ensures { bits bytes.new ≡ with_value (8 * place) 8 word (bits bytes.old) }
{
    bytes[place] = (word % 256) as u8;
}

/// A word whose highest `kept` bits are the lowest `kept` bits of `above`, followed by the bits of `below`
/// without its lowest `left` bits.
#[inline]
pub fn spanned(above: u64, kept: u32, below: u64, left: u32) -> u64
    requires some { 1 ≤ kept }
    requires few { kept < 64 }
    requires left { left < 64 }
    requires fits { below < 2 ^ (64 - kept + left) }
    ensures { bits_of 64 result ≡ bits_of kept above ++ bits_of (64 - kept) (below / 2 ^ left) }
{
    (above << (64 - kept)) + (below >> left)
}
