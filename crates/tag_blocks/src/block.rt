//! Where a block begins, and how long it is.
ghost use Rattle.std.specs.Prelude.{◌≡◌, ◌+◌, ◌^◌, ◌==◌, ◌&&◌, ◌<◌, ◌≤◌, nat_le, nat_lt, IsTrue, length, IfSome};
ghost use Rattle.std.specs.List.{list_all};
ghost use Rattle.std.specs.Int.{bit_at};
ghost use Rattle.tag_blocks.specs.Blocks.{begins_with, seven_bit_number, is_id3v2, id3v2_length, ape_number, is_ape, block_front};

use byteorder::{ByteOrder, LittleEndian};

/// The kinds of blocks.
#[derive(Clone, Copy, Debug, PartialEq, Eq)]
pub enum Kind {
    /// A block with a header of 10 bytes, which gives its size (ID3v2.3.0 and ID3v2.4.0, 3.1).
    Id3v2,
    /// 128 bytes that begin with `TAG`.
    Id3v1,
    /// A tag with a header and a footer of 32 bytes each; the header gives the size (APEv2).
    Ape,
}

/// A block: its kind, and its whole length in bytes, header and footer included.
#[derive(Clone, Copy, Debug, PartialEq, Eq)]
pub struct Block {
    pub kind: Kind,
    pub length: u64,
}

impl Block {
    fn of(kind: Kind, length: u64) -> Block
        ensures { result ≡ record { kind = kind; length = length } }
    {
        Block { kind, length }
    }
}

/// The length of the header of ID3v2, and of its footer where there is one, in bytes.
const ID3V2_HEADER: usize = 10;

/// The bit of the flags of ID3v2 that says that there is a footer.
const ID3V2_HAS_FOOTER: u32 = 4;

/// The length of every ID3v1 block in bytes.
const ID3V1_LENGTH: u64 = 128;

/// The greatest length in bytes of an APEv2 block that is read as a tag or written: 1 MiB.
pub const LONGEST_TAG: u64 = 1_048_576;

/// The length of the header of APEv2, and of its footer, in bytes.
pub(crate) const APE_HEADER: usize = 32;

/// Where the version is in the header of APEv2, the size of items and footer, and the flags, in bytes.
pub(crate) const APE_VERSION_AT: usize = 8;

pub(crate) const APE_SIZE_AT: usize = 12;

pub(crate) const APE_FLAGS_AT: usize = 20;

/// The bits of the flags of APEv2 that say that the tag has a header, and that this is the header.
const APE_HAS_HEADER: u32 = 31;

pub(crate) const APE_IS_HEADER: u32 = 29;

/// Whether a bit is set, counted from the least significant.
pub(crate) fn is_set(flags: u32, bit: u32) -> bool
    requires { bit < 32 }
    ensures { result ≡ (bit_at flags bit == 1) }
{
    (flags >> bit) % 2 == 1
}

/// Whether each byte is below 80 (hexadecimal).
fn have_seven_bits(bytes: &[u8]) -> bool
    ensures { result ≡ list_all (λ b. nat_lt b 128) bytes.now }
{
    bytes.iter().all(|byte| *byte < 0x80)
}

/// The number of four bytes of 7 bits each, the first the most significant.
fn seven_bit_number(four: &[u8]) -> u64
    requires { length four.now ≡ 4 }
    ensures number { result ≡ seven_bit_number four.now }
    ensures below { result < 2 ^ 30 }
{
    u64::from(four[0]) * (1 << 21)
        + u64::from(four[1]) * (1 << 14)
        + u64::from(four[2]) * (1 << 7)
        + u64::from(four[3])
}

/// Whether there are at least `least` bytes, and they begin with this text.
fn has_front(bytes: &[u8], least: usize, text: &[u8]) -> bool
    ensures front { result ≡ (nat_le least (length bytes.now) && begins_with text.now bytes.now) }
    ensures there { IsTrue result → least ≤ length bytes.now }
{
    bytes.len() >= least && bytes.starts_with(text)
}

/// Whether the bytes begin with an ID3v2 block.
#[tactic(auto, unfolding(crate::specs::Blocks::is_id3v2))]
fn is_id3v2(front: &[u8]) -> bool
    ensures begins { result ≡ is_id3v2 front.now }
    ensures header { IsTrue result → 10 ≤ length front.now }
{
    has_front(front, ID3V2_HEADER, b"ID3")
        && front[3] != 0xff
        && front[4] != 0xff
        && have_seven_bits(&front[6..10])
}

/// The length of the ID3v2 block with which the bytes begin.
#[tactic(auto, unfolding(crate::specs::Blocks::id3v2_length))]
fn id3v2_length(front: &[u8]) -> u64
    requires { 10 ≤ length front.now }
    ensures length { result ≡ id3v2_length front.now }
    ensures least { 10 ≤ result }
    ensures most { result ≤ 4294967327 }
{
    let has_footer = is_set(u32::from(front[5]), ID3V2_HAS_FOOTER);
    let footer = if has_footer { ID3V2_HEADER } else { 0 };
    (ID3V2_HEADER + footer) as u64 + seven_bit_number(&front[6..10])
}

/// The little-endian number of 32 bits at byte `at` of an APEv2 header.
pub(crate) fn ape_number(front: &[u8], at: usize) -> u32
    requires { at + 4 ≤ length front.now }
    ensures { result ≡ ape_number at front.now }
{
    LittleEndian::read_u32(&front[at..at + 4])
}

/// Whether the bytes begin with an APEv2 block.
#[tactic(auto, unfolding(crate::specs::Blocks::is_ape))]
fn is_ape(front: &[u8]) -> bool
    ensures begins { result ≡ is_ape front.now }
    ensures header { IsTrue result → 32 ≤ length front.now }
{
    has_front(front, APE_HEADER, b"APETAGEX")
        && ape_number(front, APE_VERSION_AT) == 2000
        && ape_number(front, APE_SIZE_AT) >= 32
        && is_set(ape_number(front, APE_FLAGS_AT), APE_HAS_HEADER)
        && is_set(ape_number(front, APE_FLAGS_AT), APE_IS_HEADER)
}

/// The block that begins at an offset of a file. `front` is the first 32 bytes there, or all that are left;
/// of a longer slice only the first 32 bytes matter. `None` exactly where none of these begins there:
///
/// - ID3v2: 10 bytes are there, which are `ID3`, two version bytes that aren't ff, a flag byte, and four
///   bytes of the size below 80 (hexadecimal);
/// - ID3v1: the bytes begin with `TAG`;
/// - APEv2: 32 bytes are there, which are `APETAGEX`, version 2000, a size of at least 32, any count, flags
///   with bits 31 and 29 set, and any 8 bytes.
///
/// The length is in bytes, from 10 to 4,294,967,327. It isn't checked whether that many bytes are there.
#[tactic(auto, unfolding(crate::specs::Blocks::block_front, crate::specs::Blocks::is_id3v1, crate::specs::Blocks::ape_length))]
pub fn block_at(front: &[u8]) -> Option<Block>
    ensures block { result ≡ block_front front.now }
    ensures least { IfSome result (λ b. 10 ≤ b.length) }
    ensures most { IfSome result (λ b. b.length ≤ 4294967327) }
{
    if is_id3v2(front) {
        return Some(Block::of(Kind::Id3v2, id3v2_length(front)));
    }
    if front.starts_with(b"TAG") {
        return Some(Block::of(Kind::Id3v1, ID3V1_LENGTH));
    }
    if is_ape(front) {
        let size = ape_number(front, APE_SIZE_AT);
        return Some(Block::of(Kind::Ape, APE_HEADER as u64 + u64::from(size)));
    }
    None
}
