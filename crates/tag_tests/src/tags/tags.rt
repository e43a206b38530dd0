//! Tags written out from the layout of APEv2, independently of the crate that is tested: exact bytes, what changes in
//! them, and each fault with its place, which was counted by hand.

use std::alloc::Global;
use std::process::Abort;
use std::test::Fail;
use tag_blocks::{Block, Kind, Tag, TagFault, Undo, UndoItem, block_at};
use test_files::texts::{TextFault, bytes_of_words, define};

/// The parts of tags. A header or footer has a text, a version, the size of all items and the footer, the count of items,
/// flags, and 8 zero bytes; an item has the size of its value, flags, and its key followed by a zero byte.
static NAMES: &str = "\
HEAD = 'APETAGEX' d0070000 2f000000 01000000 000000a0 0000000000000000
FOOT = 'APETAGEX' d0070000 2f000000 01000000 00000080 0000000000000000
HEAD_OF_2 = HEAD@16=02
FOOT_OF_2 = FOOT@16=02
HEAD_OF_3 = HEAD@16=03
FOOT_OF_3 = FOOT@16=03
AMID_HEAD = 'APETAGEX' d0070000 6d000000 03000000 010000e0 0000000000000000
AMID_FOOT = 'APETAGEX' d0070000 6d000000 03000000 020000c0 0000000000000000
DROPPED_HEAD = 'APETAGEX' d0070000 4d000000 02000000 010000e0 0000000000000000
DROPPED_FOOT = 'APETAGEX' d0070000 4d000000 02000000 020000c0 0000000000000000
LONG_HEAD = 'APETAGEX' d0070000 29010000 01000000 000000a0 0000000000000000
LONG_FOOT = 'APETAGEX' d0070000 29010000 01000000 00000080 0000000000000000
TITLE = 01000000 00000000 'Title' 00 'a'
MINMAX = 07000000 00000000 'MP3GAIN' 5f 'MINMAX' 00 '089,210'
UNDO = 0b000000 00000000 'MP3GAIN' 5f 'UNDO' 00
OTHER_UNDO = 0b000000 02000000 'mp3gain' 5f 'Undo' 00";

/// A tag with only the undo item: -1 step left and right, with `W`. Header, item of 32 bytes and footer.
const ALONE: &str = "HEAD@12=40 UNDO '-001,-001,W' FOOT@12=40";

/// A tag whose undo item has its key in another case and other flags, with an item before it (15 bytes) and one
/// after it (30 bytes), and other flags in the header and footer.
const AMID: &str = "AMID_HEAD TITLE OTHER_UNDO '+003,-004,N' MINMAX AMID_FOOT";

/// The same with -997 left, 999 right and `W`.
const AMID_CHANGED: &str = "AMID_HEAD TITLE OTHER_UNDO '-997,+999,W' MINMAX AMID_FOOT";

/// The same without the undo item.
const AMID_DROPPED: &str = "DROPPED_HEAD TITLE MINMAX DROPPED_FOOT";

/// The same without the undo item, and then with a new one.
const AMID_NEW: &str = "AMID_HEAD TITLE MINMAX UNDO '-001,-001,W' AMID_FOOT";

/// A tag whose undo item is after another item, and has a value of 10 bytes.
const BAD_UNDO: &str =
    "HEAD_OF_2@12=4e TITLE 0a000000 00000000 'MP3GAIN' 5f 'UNDO' 00 '+00,+000,N' FOOT_OF_2@12=4e";

/// What is wrong with a block, the place of its first fault, and its bytes.
static FAULTS: &str = "\
a byte of the header that has to be zero: 24: HEAD@31=01 TITLE FOOT
a key of one character: 47: HEAD_OF_2@12=3b TITLE 02000000 00000000 'x' 00 'ab' FOOT_OF_2@12=3b
a key without a zero byte behind it: 47: HEAD_OF_2@12=3a TITLE 01000000 00000000 'xyz' FOOT_OF_2@12=3a
a key with a character 1f: 32: HEAD_OF_2@12=3d 02000000 00000000 'a' 1f 'b' 00 'ab' TITLE FOOT_OF_2@12=3d
a key of 256 characters: 32: LONG_HEAD 00000000 00000000 6b*256 00 LONG_FOOT
a value that passes the footer by one byte: 47: HEAD_OF_2@12=3e TITLE 04000000 00000000 'key' 00 'abc' FOOT_OF_2@12=3e
a second undo item: 79: HEAD_OF_3@12=6f UNDO '-001,-001,W' TITLE OTHER_UNDO '+003,-004,N' FOOT_OF_3@12=6f
fewer items than the header counts: 47: HEAD_OF_2 TITLE FOOT_OF_2
more items than the header counts: 47: HEAD@12=4d TITLE MINMAX FOOT@12=4d
another text in the footer: 47: HEAD TITLE FOOT@7=59
version 1000 in the footer: 47: HEAD TITLE 'APETAGEX' e8030000 2f000000 01000000 00000080 0000000000000000
another size in the footer: 47: HEAD TITLE FOOT@12=0f
another count in the footer: 47: HEAD TITLE FOOT@16=02
a header's flag in the footer: 47: HEAD TITLE FOOT@23=a0
a byte of the footer that has to be zero: 47: HEAD TITLE FOOT@24=01";

/// The bytes of these words.
fn bytes_of(alloc: Global, words: &'static str) -> Result<Vec<u8>, TextFault> {
    let mut names = Vec::new(alloc);
    for line in NAMES.lines() {
        define(alloc, &mut names, line)?;
    }
    bytes_of_words(alloc, &names, words)
}

/// The tag of a whole APEv2 block.
fn tag_of(rt: &impl Abort, alloc: Global, block: &[u8]) -> Result<Tag, TagFault> {
    assert!(rt; block.len() <= 1_048_576);
    let whole = Block {
        kind: Kind::Ape,
        length: block.len() as u64,
    };
    assert!(rt; block_at(block) == Some(whole));
    Tag::read(alloc, block)
}

/// The tag of a block of these words.
fn read(rt: &impl Abort, alloc: Global, words: &'static str) -> Result<Tag, Fail> {
    let block = bytes_of(alloc, words)?;
    Ok(tag_of(rt, alloc, &block)?)
}

/// The tag of these words without its undo item.
fn read_and_drop(rt: &impl Abort, alloc: Global, words: &'static str) -> Result<Tag, Fail> {
    let mut tag = read(rt, alloc, words)?;
    tag.drop_undo();
    Ok(tag)
}

fn is_written(alloc: Global, tag: &Tag, bytes: &[u8]) -> bool {
    match tag.write(alloc) {
        Ok(written) => written.as_slice() == bytes,
        Err(_) => false,
    }
}

/// The undo item of the tag, its length, and its bytes.
fn expect_tag(
    rt: &impl Abort,
    alloc: Global,
    tag: &Tag,
    undo: UndoItem,
    words: &'static str,
) -> Result<(), Fail> {
    let bytes = bytes_of(alloc, words)?;
    assert!(rt; tag.length() == bytes.len() as u64);
    assert!(rt; tag.undo() == undo);
    assert!(rt; is_written(alloc, tag, &bytes));
    Ok(())
}

/// Whether the tag has no items.
fn is_bare(tag: &Tag) -> bool {
    tag.is_empty() && tag.length() == 64 && tag.undo() == UndoItem::Missing
}

const ONE_LOWER: Undo = Undo {
    left: -1,
    right: -1,
    wrap: true,
};

#[test]
fn a_new_tag(rt: HostRuntime) -> Result<(), Fail> {
    let mut tag = Tag::new(rt.alloc());
    assert!(rt; is_bare(&tag));
    tag.set_undo(&ONE_LOWER)?;
    assert!(rt; !tag.is_empty());
    expect_tag(&rt, rt.alloc(), &tag, UndoItem::Found(ONE_LOWER), ALONE)
}

#[test]
fn an_undo_item_amid_others(rt: HostRuntime) -> Result<(), Fail> {
    let mut tag = read(&rt, rt.alloc(), AMID)?;
    let before = Undo {
        left: 3,
        right: -4,
        wrap: false,
    };
    expect_tag(&rt, rt.alloc(), &tag, UndoItem::Found(before), AMID)?;
    let after = Undo {
        left: -997,
        right: 999,
        wrap: true,
    };
    tag.set_undo(&after)?;
    expect_tag(&rt, rt.alloc(), &tag, UndoItem::Found(after), AMID_CHANGED)
}

#[test]
fn an_undo_item_dropped(rt: HostRuntime) -> Result<(), Fail> {
    let mut tag = read_and_drop(&rt, rt.alloc(), AMID)?;
    expect_tag(&rt, rt.alloc(), &tag, UndoItem::Missing, AMID_DROPPED)?;
    tag.set_undo(&ONE_LOWER)?;
    expect_tag(&rt, rt.alloc(), &tag, UndoItem::Found(ONE_LOWER), AMID_NEW)
}

#[test]
fn the_only_item_dropped(rt: HostRuntime) -> Result<(), Fail> {
    let tag = read_and_drop(&rt, rt.alloc(), ALONE)?;
    assert!(rt; is_bare(&tag));
    Ok(())
}

#[test]
fn a_bad_undo_item(rt: HostRuntime) -> Result<(), Fail> {
    let tag = read(&rt, rt.alloc(), BAD_UNDO)?;
    assert!(rt; tag.undo() == UndoItem::Bad(47));
    Ok(())
}

/// Whether the first fault of the row's block is at the row's place.
fn has_fault(rt: &impl Abort, alloc: Global, row: &'static str) -> Result<bool, Fail> {
    let (place, words) = row.split_once(": ").ok_or("no place")?;
    let block = bytes_of(alloc, words)?;
    Ok(match tag_of(rt, alloc, &block) {
        Ok(_) => false,
        Err(fault) => fault == TagFault::BadTag(place.parse::<u64>()?),
    })
}

#[test]
fn faults(rt: HostRuntime) -> Result<(), Fail> {
    let mut count: usize = 0;
    for line in FAULTS.lines() {
        let (what, row) = line.split_once(": ").ok_or("no row")?;
        assert!(rt; has_fault(&rt, rt.alloc(), row)?, "{what}");
        count = count.saturating_add(1);
    }
    assert!(rt; count == 15);
    Ok(())
}
