//! Fields of heads, by the layout that encoders write: text, flags, and each field whose flag is set.

use info_header::{Info, entry};
use std::process::Abort;
use std::test::Fail;
use test_files::files::Stretch::{Bytes, Fill};
use test_files::files::{Stretch, bytes_of};
use test_files::table;

/// A head without fields, which the cases add to.
const NONE: Info = Info {
    vbr: false,
    frames: None,
    bytes: None,
    table: None,
    quality: None,
    extension: [0; 36],
};

/// The bytes of a head without a table, and its fields.
struct Case {
    what: &'static str,
    bytes: &'static [u8],
    frames: Option<u32>,
    length: Option<u32>,
    quality: Option<u32>,
    /// The first three bytes of the extension; the others are 0.
    extension: [u8; 3],
}

static CASES: [Case; 9] = table! {
    Case { what, bytes, frames, length, quality, extension }
    ("no flags", b"Info\0\0\0\0abc", None, None, None, *b"abc")
    ("text alone", b"Info", None, None, None, [0; 3])
    ("flags that aren't whole", b"Info\0\0\0", None, None, None, [0; 3])
    ("frames and bytes", b"Info\0\0\0\x03\0\0\x23\xf0\x01\x02\x03\x04abc", Some(9200), Some(0x0102_0304),
        None, *b"abc")
    ("frames and quality, and flags without a meaning", b"Info\x80\0\x01\xf9\0\0\0\x02\0\0\0\x4eab", Some(2),
        None, Some(78), *b"ab\0")
    ("quality alone, and it ends with the bytes", b"Info\0\0\0\x08\0\0\0\x4e", None, None, Some(78), [0; 3])
    ("bytes that pass the end by a byte", b"Info\0\0\0\x03\0\0\0\x02\0\0\0", Some(2), None, None, [0; 3])
    ("a table that passes the end, and no quality behind it", b"Info\0\0\0\x0d\0\0\0\x02\0\0\0\x4eabcdefgh",
        Some(2), None, None, [0; 3])
    ("frames that pass the end, and a flag behind them", b"Info\0\0\0\x09\0\0", None, None, None, [0; 3])
};

/// The extension with these first bytes, and then 0.
fn extension_of(front: &[u8]) -> [u8; 36] {
    let mut extension = [0; 36];
    for (byte, own) in extension.iter_mut().zip(front) {
        *byte = *own;
    }
    extension
}

fn is_read(case: &Case) -> bool {
    let wanted = Info {
        frames: case.frames,
        bytes: case.length,
        quality: case.quality,
        extension: extension_of(&case.extension),
        ..NONE
    };
    Info::read(case.bytes) == wanted
}

#[test]
fn heads_without_a_table(rt: HostRuntime) {
    for case in &CASES {
        assert!(rt; is_read(case), "{}", case.what);
    }
}

/// Text, flags, two frames, 729 bytes, the table, quality 100, and an extension of 36 times 55 (hex), followed by 44 more bytes.
static WHOLE: [Stretch; 4] = [
    Bytes(b"Xing\0\0\0\x0f\0\0\0\x02\0\0\x02\xd9"),
    Fill(7, 100),
    Bytes(b"\0\0\0\x64"),
    Fill(0x55, 80),
];

/// The fields of that head, with this extension.
fn whole_with(extension: [u8; 36]) -> Info {
    Info {
        vbr: true,
        frames: Some(2),
        bytes: Some(729),
        table: Some([7; 100]),
        quality: Some(100),
        extension,
    }
}

#[test]
fn a_whole_head(rt: HostRuntime) -> Result<(), Fail> {
    let bytes = bytes_of(rt.alloc(), &WHOLE)?;
    assert!(rt; Info::read(&bytes) == whole_with([0x55; 36]));
    // Ten bytes of the extension are left.
    let short = bytes.get(..130).ok_or("no head")?;
    assert!(rt; Info::read(short) == whole_with(extension_of(&[0x55; 10])));
    Ok(())
}

/// An entry of the table, worked out by hand: the offset of a frame and the length of the file in bytes, and the entry.
struct Entry {
    offset: u32,
    bytes: u32,
    wanted: u8,
}

static ENTRIES: [Entry; 10] = table! {
    Entry { offset, bytes, wanted }
    // A lead-in and a frame after an Info frame of 208 bytes.
    (208, 729, 73)
    (312, 729, 109)
    // Two frames of 417 bytes.
    (208, 1042, 51)
    (625, 1042, 153)
    // The Info frame of MPEG-2 with one channel, 169 bytes, then 240 and 24.
    (169, 433, 99)
    (409, 433, 241)
    (0, 1, 0)
    // 256 isn't an entry.
    (433, 433, 255)
    // Products above 32 bits.
    (3_000_000_000, 4_000_000_000, 192)
    (0xffff_ffff, 1, 255)
};

fn is_entry(case: &Entry) -> bool {
    case.bytes > 0 && entry(case.offset, case.bytes) == case.wanted
}

#[test]
fn entries(rt: HostRuntime) -> Result<(), Fail> {
    for case in &ENTRIES {
        assert!(rt; is_entry(case), "{}", case.offset);
    }
    Ok(())
}
