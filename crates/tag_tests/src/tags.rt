//! The first bytes of blocks, exactly, and each way for bytes not to be a block. The lengths are worked
//! out by hand from the layouts.

ghost use Rattle.std.specs.Prelude.{◌≡◌};

mod tags;
mod undo;

use byteorder::{ByteOrder, LittleEndian};
use std::process::Abort;
use tag_blocks::*;
use test_files::table;

/// The first bytes of a block, its kind, and its length in bytes.
struct Begins {
    what: &'static str,
    front: &'static [u8],
    kind: Kind,
    length: u64,
}

static BLOCKS: [Begins; 9] = table! {
    Begins { what, front, kind, length }
    ("ID3v2 with a footer", b"ID3\x04\x00\x10\x00\x00\x00\x14", Kind::Id3v2, 40)
    ("ID3v2 with all flags but the footer's", b"ID3\x03\x00\xef\x00\x00\x02\x01", Kind::Id3v2, 267)
    ("ID3v2 of the greatest size and versions", b"ID3\xfe\xfe\x00\x7f\x7f\x7f\x7f", Kind::Id3v2, 268_435_465)
    ("ID3v2 with its first bytes", b"ID3\x03\x00\x00\x01\x02\x03\x04TIT2\x00\x00\x00\x02\x00\x00\x00x",
        Kind::Id3v2, 2_130_318)
    ("ID3v1", b"TAG", Kind::Id3v1, 128)
    ("ID3v1, more than 32 bytes of it", b"TAGxxxxxxxxxxxxxxxxxxxxxxxxxxxxxxxxxxxxx", Kind::Id3v1, 128)
    ("APEv2",
        b"APETAGEX\xd0\x07\x00\x00\x40\x00\x00\x00\x01\x00\x00\x00\x00\x00\x00\xa0\x00\x00\x00\x00\x00\x00\x00\x00",
        Kind::Ape, 96)
    ("APEv2 without items",
        b"APETAGEX\xd0\x07\x00\x00\x20\x00\x00\x00\x00\x00\x00\x00\x00\x00\x00\xa0\x00\x00\x00\x00\x00\x00\x00\x00",
        Kind::Ape, 64)
    ("APEv2 of the greatest numbers",
        b"APETAGEX\xd0\x07\x00\x00\xff\xff\xff\xff\xff\xff\xff\xff\xff\xff\xff\xff\xff\xff\xff\xff\xff\xff\xff\xff",
        Kind::Ape, 4_294_967_327)
};

fn is_block(case: &Begins) -> bool {
    match block_at(case.front) {
        Some(block) => block.kind == case.kind && block.length == case.length,
        None => false,
    }
}

#[test]
fn blocks(rt: HostRuntime) {
    for case in &BLOCKS {
        assert!(rt; is_block(case), "{}", case.what);
    }
}

/// Bytes that no block begins with.
struct Other {
    what: &'static str,
    front: &'static [u8],
}

static OTHERS: [Other; 17] = table! {
    Other { what, front }
    ("nothing", b"")
    ("a zero byte", b"\x00TAG")
    ("a header", b"\xff\xfb\x90\x00")
    ("ID3v2, nine bytes", b"ID3\x04\x00\x00\x00\x00\x00")
    ("ID3v2, another text", b"ID4\x04\x00\x00\x00\x00\x00\x14")
    ("ID3v2, version ff", b"ID3\xff\x00\x00\x00\x00\x00\x14")
    ("ID3v2, revision ff", b"ID3\x04\xff\x00\x00\x00\x00\x14")
    ("ID3v2, size 80 in the first byte", b"ID3\x04\x00\x00\x80\x00\x00\x14")
    ("ID3v2, size 80 in the last byte", b"ID3\x04\x00\x00\x00\x00\x00\x80")
    ("ID3v1, two bytes", b"TA")
    ("ID3v1, another text", b"TAB")
    ("APEv2, 31 bytes",
        b"APETAGEX\xd0\x07\x00\x00\x40\x00\x00\x00\x01\x00\x00\x00\x00\x00\x00\xa0\x00\x00\x00\x00\x00\x00\x00")
    ("APEv2, another text",
        b"APETAGEY\xd0\x07\x00\x00\x40\x00\x00\x00\x01\x00\x00\x00\x00\x00\x00\xa0\x00\x00\x00\x00\x00\x00\x00\x00")
    ("APEv2, version 1000",
        b"APETAGEX\xe8\x03\x00\x00\x40\x00\x00\x00\x01\x00\x00\x00\x00\x00\x00\xa0\x00\x00\x00\x00\x00\x00\x00\x00")
    ("APEv2, size 31",
        b"APETAGEX\xd0\x07\x00\x00\x1f\x00\x00\x00\x01\x00\x00\x00\x00\x00\x00\xa0\x00\x00\x00\x00\x00\x00\x00\x00")
    ("APEv2, no header by flag 31",
        b"APETAGEX\xd0\x07\x00\x00\x40\x00\x00\x00\x01\x00\x00\x00\x00\x00\x00\x20\x00\x00\x00\x00\x00\x00\x00\x00")
    ("APEv2, a footer by flag 29",
        b"APETAGEX\xd0\x07\x00\x00\x40\x00\x00\x00\x01\x00\x00\x00\x00\x00\x00\x80\x00\x00\x00\x00\x00\x00\x00\x00")
};

#[test]
fn bytes_of_no_block(rt: HostRuntime) {
    for case in &OTHERS {
        assert!(rt; block_at(case.front).is_none(), "{}", case.what);
    }
}

/// The bytes of the number of four bytes.
fn bytes_of_number(four: [u8; 4]) -> [u8; 4]
    ensures { result ≡ four }
{
    let mut bytes = [0; 4];
    LittleEndian::write_u32(&mut bytes, LittleEndian::read_u32(&four));
    bytes
}

#[test]
fn numbers_come_back(rt: HostRuntime) {
    let version = [0xd0, 0x07, 0x00, 0x00];
    assert!(rt; LittleEndian::read_u32(&version) == 2000);
    assert!(rt; bytes_of_number(version) == version);
}
