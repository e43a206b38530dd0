//! The check word of a frame (ISO/IEC 11172-3 and 13818-3, 2.4.3.1).
ghost use Rattle.std.specs.Prelude.{◌≡◌, ◌*◌, ◌<◌, ◌≤◌, [], length, take, slice_index_or};
ghost use Rattle.bit_fields.specs.Bits.{bits, bits_of};
ghost use Rattle.frame_header.specs.Tables.{class_of};
ghost use Rattle.side_info.specs.CheckWord.{remainder, check_word_of, IsCrcOf};
ghost use Rattle.side_info.specs.Side.{SideFits};
ghost use Rattle.side_info.specs.declared.crc.TheConstants.{REMAINDERS as remainders};

use crate::side::Side;
use frame_header::Header;

/// The words for the bytes 0 to 255 where a byte's word is the exclusive or of the words of its bits: made from the
/// word of 0 and the words of the bits, the least significant first.
macro_rules! by_bits {
    ([$($word:expr),*]) => {
        [$($word),*]
    };
    ([$($word:expr),*] $bit:literal $($more:literal)*) => {
        by_bits!([$($word),*, $($word ^ $bit),*] $($more)*)
    };
}

/// The word after 8, 16, 24, up to 64 zero bits, from a word whose upper byte is this one and whose lower byte is 0.
static REMAINDERS: [[u16; 256]; 8] = [
    by_bits!([0] 0x8005 0x800f 0x801b 0x8033 0x8063 0x80c3 0x8183 0x8303),
    by_bits!([0] 0x8603 0x8c03 0x9803 0xb003 0xe003 0x4003 0x8006 0x8009),
    by_bits!([0] 0x8017 0x802b 0x8053 0x80a3 0x8143 0x8283 0x8503 0x8a03),
    by_bits!([0] 0x9403 0xa803 0xd003 0x2003 0x4006 0x800c 0x801d 0x803f),
    by_bits!([0] 0x807b 0x80f3 0x81e3 0x83c3 0x8783 0x8f03 0x9e03 0xbc03),
    by_bits!([0] 0xf803 0x7003 0xe006 0x4009 0x8012 0x8021 0x8047 0x808b),
    by_bits!([0] 0x8113 0x8223 0x8443 0x8883 0x9103 0xa203 0xc403 0x0803),
    by_bits!([0] 0x1006 0x200c 0x4018 0x8030 0x8065 0x80cf 0x819b 0x8333),
];

/// The word before the first bit: all ones.
const START: u16 = 0xffff;

/// What a byte adds to the word once `later` more bytes have been divided.
#[inline]
fn crc_table_entry(byte: u8, later: usize) -> u16
    requires { later < 8 }
    ensures { result ≡ slice_index_or (slice_index_or remainders later []) byte 0 }
{
    REMAINDERS[later][usize::from(byte)]
}

/// The word after eight more bits.
fn crc_byte(word: u16, byte: u8) -> u16
    ensures { result ≡ remainder word (bits_of 8 byte) }
{
    let above = (word >> 8) as u8;
    (word << 8) ^ crc_table_entry(above ^ byte, 0)
}

/// The word after the bits of two more bytes.
fn crc_two_bytes(word: u16, a: u8, b: u8) -> u16
    ensures { result ≡ remainder (remainder word (bits_of 8 a)) (bits_of 8 b) }
{
    crc_table_entry((word >> 8) as u8 ^ a, 1) ^ crc_table_entry((word % 256) as u8 ^ b, 0)
}

/// The word after the bits of the first eight of these bytes. What each byte adds to it doesn't depend on the
/// others, so the eight tables can be read at once.
fn crc_eight_bytes(word: u16, bytes: &[u8]) -> u16
    requires { 8 ≤ length bytes.now }
    ensures { result ≡ remainder word (bits (take 8 bytes.now)) }
{
    crc_table_entry((word >> 8) as u8 ^ bytes[0], 7)
        ^ crc_table_entry((word % 256) as u8 ^ bytes[1], 6)
        ^ crc_table_entry(bytes[2], 5)
        ^ crc_table_entry(bytes[3], 4)
        ^ crc_table_entry(bytes[4], 3)
        ^ crc_table_entry(bytes[5], 2)
        ^ crc_table_entry(bytes[6], 1)
        ^ crc_table_entry(bytes[7], 0)
}

/// The word after the bits of the first `8 * count` of these bytes.
fn crc_after_eights(word: u16, bytes: &[u8], count: usize) -> u16
    requires { 8 * count ≤ length bytes.now }
    ensures { result ≡ remainder word (bits (take (8 * count) bytes.now)) }
{
    let mut so_far = word;
    for i in 0..count {
        let at = 8 * i;
        so_far = crc_eight_bytes(so_far, &bytes[at..at + 8]);
    }
    so_far
}

/// The word after the bits of these bytes, one at a time.
fn crc_after_bytes(word: u16, bytes: &[u8]) -> u16
    ensures { result ≡ remainder word (bits bytes.now) }
{
    let mut so_far = word;
    for byte in bytes {
        so_far = crc_byte(so_far, *byte);
    }
    so_far
}

/// The word after the bits of these bytes.
fn crc_after(word: u16, bytes: &[u8]) -> u16
    ensures { result ≡ remainder word (bits bytes.now) }
{
    let eights = bytes.len() / 8;
    crc_after_bytes(crc_after_eights(word, bytes, eights), &bytes[8 * eights..])
}

/// The check word of a frame, by the four bytes of its header and the bytes of its side information as they are in
/// the frame: the remainder of the last two bytes of the header and the side bytes, the most significant bits first,
/// divided by x^16 + x^15 + x^2 + 1 with all ones before them, and not inverted (ISO/IEC 11172-3 and 13818-3, 2.4.3.1).
pub fn check_word_of_bytes(header: &[u8], side: &[u8]) -> u16
    requires { length header.now ≡ 4 }
    ensures { IsCrcOf header.now side.now result }
{
    crc_after(crc_two_bytes(START, header[2], header[3]), side)
}

/// The check word of a frame with this header and this side information: over the last 16 bits of the
/// header and the side bits (ISO/IEC 11172-3 and 13818-3, 2.4.3.1).
pub fn check_word(header: &Header, side: &Side) -> u16
    requires { SideFits (class_of header.now) side.now }
    ensures { result ≡ check_word_of header.now side.now }
{
    let class = header.class();
    let mut room = [0; 32];
    let side_bytes = &mut room[..class.side_size() as usize];
    side.write(class, side_bytes);
    check_word_of_bytes(&header.bytes(), side_bytes)
}
