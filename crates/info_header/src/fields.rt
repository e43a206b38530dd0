//! The fields of a head.
ghost use Rattle.std.specs.Prelude.{◌≡◌, ◌+◌, ◌<◌, ◌≤◌, ◌==◌, drop};
ghost use Rattle.std.specs.Int.{bit_at};
ghost use Rattle.info_header.specs.Info.{flags_in, field_size, field_offset, field_in, number_of, padded_bytes, info_in, seek_table_entry};

use byteorder::{BigEndian, ByteOrder};

/// The fields of a head after its text. A number or a table that the head doesn't have is `None`.
#[derive(Clone, Copy, Debug, PartialEq, Eq)]
pub struct Info {
    /// Whether the bit rate changes: the text is `Xing` rather than `Info`.
    pub vbr: bool,
    /// The number of frames after the head.
    pub frames: Option<u32>,
    /// The number of bytes from the first byte of the head to the last byte of the last frame.
    pub bytes: Option<u32>,
    /// The seek table: for each hundredth of the frames, where it begins, in 256th parts of the bytes.
    pub table: Option<[u8; 100]>,
    pub quality: Option<u32>,
    /// The 36 bytes after these fields, where encoders keep their name and the encoder delay.
    pub extension: [u8; 36],
}

/// Where the word of flags begins, in bytes from the first byte of the text.
const FLAGS_AT: usize = 4;

/// Where the first field begins, in bytes from the first byte of the text.
const FIELDS_AT: usize = 8;

/// The bits of the flags that say which fields there are.
const FRAMES: u32 = 0;

const BYTES: u32 = 1;

const TABLE: u32 = 2;

const QUALITY: u32 = 3;

/// The lengths of the fields in bytes.
const SIZES: [usize; 4] = [4, 4, 100, 4];

/// The length of the extension in bytes.
const EXTENSION: usize = 36;

/// Whether a bit is set, counted from the least significant.
fn is_set(flags: u32, bit: u32) -> bool
    requires { bit < 32 }
    ensures { result ≡ (bit_at flags bit == 1) }
{
    (flags >> bit) % 2 == 1
}

/// The word of flags, or 0 where it is cut short.
fn flags_of(bytes: &[u8]) -> u32
    ensures { result ≡ flags_in bytes.now }
{
    match bytes.get(FLAGS_AT..FIELDS_AT) {
        Some(four) => BigEndian::read_u32(four),
        None => 0,
    }
}

/// Where the next field begins: at the same offset as this one if this one's flag isn't set.
#[tactic(auto, unfolding(crate::specs::Info::field_offset))]
fn offset_behind(flags: u32, field: u32, at: usize) -> usize
    requires known { field < 4 }
    requires offset { at ≡ field_offset flags field }
    requires near { at ≤ 1000 }
    ensures offset { result ≡ field_offset flags (field + 1) }
    ensures near { result ≤ at + 100 }
{
    if is_set(flags, field) {
        at + SIZES[field as usize]
    } else {
        at
    }
}

/// A field that is a number. `None` where its flag isn't set, or where it goes past the end.
#[tactic(auto, unfolding(crate::specs::Info::field_in))]
fn number_in(bytes: &[u8], flags: u32, field: u32, at: usize) -> Option<u32>
    requires known { field < 4 }
    requires number { field_size field ≡ 4 }
    requires offset { at ≡ field_offset flags field }
    requires near { at ≤ 1000 }
    ensures { result ≡ number_of (field_in flags field bytes.now) }
{
    if !is_set(flags, field) {
        return None;
    }
    let four = bytes.get(at..at + 4)?;
    Some(BigEndian::read_u32(four))
}

/// The table. `None` where its flag isn't set, or where it goes past the end.
#[tactic(auto, unfolding(crate::specs::Info::field_in))]
fn table_in(bytes: &[u8], flags: u32, at: usize) -> Option<[u8; 100]>
    requires offset { at ≡ field_offset flags 2 }
    requires near { at ≤ 1000 }
    ensures { result ≡ field_in flags 2 bytes.now }
{
    if !is_set(flags, TABLE) {
        return None;
    }
    let part = bytes.get(at..at + 100)?;
    let mut table = [0; 100];
    table.copy_from_slice(part);
    Some(table)
}

/// The bytes from byte `at` on; none where `at` is past the end.
fn bytes_from(bytes: &[u8], at: usize) -> &[u8]
    ensures { result.now ≡ drop at bytes.now }
{
    &bytes[at.min(bytes.len())..]
}

/// The 36 bytes from byte `at` on, with zeros for bytes that aren't there.
fn extension_at(bytes: &[u8], at: usize) -> [u8; 36]
    ensures { result ≡ padded_bytes 36 (drop at bytes.now) }
{
    let mut extension = [0; EXTENSION];
    let behind = bytes_from(bytes, at);
    let many = behind.len().min(EXTENSION);
    extension[..many].copy_from_slice(&behind[..many]);
    extension
}

impl Info {
    /// Reads the fields of a head. `bytes` are the bytes of the frame from the text on. A field whose flag
    /// isn't set is `None`, and so are a field that goes past the end of the bytes and all after it; then
    /// the extension is all 0. Flags that are cut short count as 0. The extension is 36 bytes after the
    /// last field, with zeros for bytes that aren't there.
    #[tactic(auto, unfolding(crate::specs::Info::info_in, crate::specs::Info::field_offset))]
    pub fn read(bytes: &[u8]) -> Info
        ensures { result ≡ info_in bytes.now }
    {
        let flags = flags_of(bytes);
        let bytes_at = offset_behind(flags, FRAMES, FIELDS_AT);
        let table_at = offset_behind(flags, BYTES, bytes_at);
        let quality_at = offset_behind(flags, TABLE, table_at);
        let extension = offset_behind(flags, QUALITY, quality_at);
        Info {
            vbr: bytes.starts_with(b"Xing"),
            frames: number_in(bytes, flags, FRAMES, FIELDS_AT),
            bytes: number_in(bytes, flags, BYTES, bytes_at),
            table: table_in(bytes, flags, table_at),
            quality: number_in(bytes, flags, QUALITY, quality_at),
            extension: extension_at(bytes, extension),
        }
    }
}

/// The entry of the seek table for a frame that begins at `offset`, out of `bytes` bytes, both counted from
/// the Info frame's first byte: how many 256th parts of the bytes are before it, rounded down, at most 255.
pub fn entry(offset: u32, bytes: u32) -> u8
    requires { 0 < bytes }
    ensures { result ≡ seek_table_entry offset bytes }
{
    (256 * u64::from(offset) / u64::from(bytes)).min(255) as u8
}
