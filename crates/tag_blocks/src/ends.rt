//! The header and the footer of an APEv2 tag.
ghost use Rattle.std.specs.Prelude.{◌≡◌, ◌≤◌, ◌==◌, ◌++◌, length, take, drop, IfOk};
ghost use Rattle.std.specs.List.{list_all};
ghost use Rattle.tag_blocks.specs.Tags.{is_reserved, is_footer, end_bytes};

use crate::block::{
    APE_FLAGS_AT, APE_HEADER, APE_IS_HEADER, APE_SIZE_AT, APE_VERSION_AT, ape_number, is_set,
};
use byteorder::{ByteOrder, LittleEndian};
use std::alloc::AllocError;

/// The text with which a header and a footer begin.
const TEXT: &[u8] = b"APETAGEX";

/// The version of a tag with a header.
const VERSION: u32 = 2000;

/// Where the count of items begins in a header or a footer.
pub(crate) const COUNT_AT: usize = 16;

/// Where the 8 bytes begin that have to be zero.
pub(crate) const RESERVED_AT: usize = 24;

/// Whether the last 8 bytes of a header or a footer are zero.
pub(crate) fn is_reserved(bytes: &[u8]) -> bool
    requires { 32 ≤ length bytes.now }
    ensures { result ≡ is_reserved bytes.now }
{
    bytes[RESERVED_AT..APE_HEADER].iter().all(|byte| *byte == 0)
}

/// Whether a footer has the size and the count that the header states.
#[tactic(auto, unfolding(crate::specs::Tags::is_footer))]
pub(crate) fn is_footer(footer: &[u8], size: u32, count: u32) -> bool
    requires { 32 ≤ length footer.now }
    ensures { result ≡ is_footer size count footer.now }
{
    footer.starts_with(TEXT)
        && ape_number(footer, APE_VERSION_AT) == VERSION
        && ape_number(footer, APE_SIZE_AT) == size
        && ape_number(footer, COUNT_AT) == count
        && !is_set(ape_number(footer, APE_FLAGS_AT), APE_IS_HEADER)
        && is_reserved(footer)
}

/// Appends a header or a footer to the bytes.
///
/// # Errors
/// If out of memory.
#[tactic(auto, unfolding(crate::specs::Tags::end_bytes))]
pub(crate) fn append_end(
    bytes: &mut Vec<u8>,
    size: u32,
    count: u32,
    flags: u32,
) -> Result<(), AllocError>
    ensures { IfOk result (λ _. bytes.new.items ≡ bytes.old.items ++ end_bytes size count flags) }
{
    let mut numbers = [0; APE_HEADER - APE_VERSION_AT];
    LittleEndian::write_u32(&mut numbers, VERSION);
    LittleEndian::write_u32(&mut numbers[4..], size);
    LittleEndian::write_u32(&mut numbers[8..], count);
    LittleEndian::write_u32(&mut numbers[12..], flags);
    bytes.extend_from_slice(TEXT)?;
    bytes.extend_from_slice(&numbers)
}
