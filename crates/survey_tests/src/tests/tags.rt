//! The tags of small files: where they are, their bytes, and why they aren't read.

use super::untold::Untold;
use moved_gains::*;
use outside::{Call, Folder, MemFolder, ReadFault};
use std::alloc::{AllocError, AllocGlobal, Global};
use std::process::Abort;
use std::test::Fail;
use sync_survey::{SurveyFault, survey};
use tag_blocks::Tag;
use test_files::files::Stretch::{Bytes, Fill};
use test_files::files::{APE, Stretch, bytes_of};
use test_files::table;

/// A silent frame of 24 bytes: MPEG-2, 24,000 Hz, 8 kbit/s, one channel.
const FRAME: Stretch = Bytes(b"\xff\xf3\x14\xc0\0\0\0\0\0\0\0\0\0\0\0\0\0\0\0\0\0\0\0\0");

/// A zero byte.
const ZERO: Stretch = Bytes(b"\0");

/// ID3v2 without a byte after its header: 10 bytes.
const ID3V2: Stretch = Bytes(b"ID3\x04\0\0\0\0\0\0");

/// APEv2 with the item `Title`, `x`: 32 bytes, 15 bytes and 32 bytes.
const TITLE: &[u8] =
    b"APETAGEX\xd0\x07\0\0\x2f\0\0\0\x01\0\0\0\0\0\0\xa0\0\0\0\0\0\0\0\0\x01\0\0\0\0\0\0\0Title\0xAPETAGEX\xd0\x07\0\0\x2f\0\0\0\x01\0\0\0\0\0\0\x80\0\0\0\0\0\0\0\0";

/// APEv2 without items: 64 bytes.
const EMPTY: &[u8] =
    b"APETAGEX\xd0\x07\0\0\x20\0\0\0\0\0\0\0\0\0\0\xa0\0\0\0\0\0\0\0\0APETAGEX\xd0\x07\0\0\x20\0\0\0\0\0\0\0\0\0\0\x80\0\0\0\0\0\0\0\0";

/// `EMPTY` as a stretch.
const EMPTY_BLOCK: Stretch = Bytes(EMPTY);

/// `TITLE` with a header that says two items.
const TWO_ITEMS: Stretch = Bytes(
    b"APETAGEX\xd0\x07\0\0\x2f\0\0\0\x02\0\0\0\0\0\0\xa0\0\0\0\0\0\0\0\0\x01\0\0\0\0\0\0\0Title\0xAPETAGEX\xd0\x07\0\0\x2f\0\0\0\x01\0\0\0\0\0\0\x80\0\0\0\0\0\0\0\0",
);

/// `EMPTY`, with a byte 1 at 24, the first of the header's last 8.
const NOT_RESERVED: Stretch = Bytes(
    b"APETAGEX\xd0\x07\0\0\x20\0\0\0\0\0\0\0\0\0\0\xa0\x01\0\0\0\0\0\0\0APETAGEX\xd0\x07\0\0\x20\0\0\0\0\0\0\0\0\0\0\x80\0\0\0\0\0\0\0\0",
);

/// The tag of a file: where it is, and its bytes.
#[derive(Drop)]
struct Found {
    extent: TagExtent,
    bytes: Vec<u8>,
}

/// Why a file has no tag that is read.
#[derive(Clone, Copy, PartialEq, Eq)]
enum NoTag {
    Survey(SurveyFault),
    Tag(FileTagFault),
}

fn written(alloc: Global, extent: TagExtent, tag: &Tag) -> Result<Found, FileTagFault> {
    let bytes = tag.write(alloc)?;
    Ok(Found { extent, bytes })
}

/// The tag of the file `a`.
fn tag_of<D: Folder>(alloc: Global, folder: &mut D) -> Result<Found, NoTag> {
    let survey = match survey(alloc, folder, "a", 100) {
        Ok(survey) => survey,
        Err(fault) => return Err(NoTag::Survey(fault)),
    };
    match read_tag(alloc, folder, "a", &survey) {
        Ok(tag) => match written(alloc, tag_extent(&survey), &tag) {
            Ok(found) => Ok(found),
            Err(fault) => Err(NoTag::Tag(fault)),
        },
        Err(fault) => Err(NoTag::Tag(fault)),
    }
}

/// Why no tag of the file `a` is read; `None` where one is.
fn no_tag_of<D: Folder>(alloc: Global, folder: &mut D) -> Option<NoTag> {
    match tag_of(alloc, folder) {
        Ok(_) => None,
        Err(reason) => Some(reason),
    }
}

/// APEv2 without items by its header, with the greatest size that is allowed, and with one byte more: 1,048,544 and
/// 1,048,545 bytes after the header's 32.
const LONGEST_HEADER: Stretch = Bytes(
    b"APETAGEX\xd0\x07\0\0\xe0\xff\x0f\0\0\0\0\0\0\0\0\xa0\0\0\0\0\0\0\0\0",
);

const TOO_LONG_HEADER: Stretch = Bytes(
    b"APETAGEX\xd0\x07\0\0\xe1\xff\x0f\0\0\0\0\0\0\0\0\xa0\0\0\0\0\0\0\0\0",
);

/// Where the tag of a file is, its length, and its bytes.
type Tagged = (u64, u64, &'static [u8]);

/// A file, and its tag, or why the tag isn't read.
struct Case {
    name: &'static str,
    parts: &'static [Stretch],
    answer: Result<Tagged, FileTagFault>,
}

static CASES: [Case; 12] = table! {
    Case { name, parts, answer }
    ("in front", &[APE, FRAME, FRAME], Ok((0, 79, TITLE)))
    ("behind another block and a zero byte", &[ID3V2, ZERO, APE, FRAME], Ok((11, 79, TITLE)))
    ("between frames", &[FRAME, APE, FRAME], Ok((24, 79, TITLE)))
    ("at the end", &[FRAME, FRAME, APE], Ok((48, 79, TITLE)))
    ("the first of two", &[FRAME, EMPTY_BLOCK, ID3V2, APE], Ok((24, 64, EMPTY)))
    ("none", &[FRAME, FRAME], Ok((48, 0, EMPTY)))
    ("none, a zero byte and another block at the end", &[FRAME, FRAME, ZERO, ID3V2], Ok((48, 0, EMPTY)))
    ("none, another block in front", &[ID3V2, FRAME], Ok((34, 0, EMPTY)))
    ("a reserved byte that isn't 0", &[FRAME, NOT_RESERVED, FRAME], Err(FileTagFault::Bad(48)))
    ("an item more by the header", &[FRAME, TWO_ITEMS], Err(FileTagFault::Bad(71)))
    ("the longest block", &[FRAME, LONGEST_HEADER, Fill(0, 1_048_544)], Err(FileTagFault::Bad(56)))
    ("one byte more", &[FRAME, TOO_LONG_HEADER, Fill(0, 1_048_545)], Err(FileTagFault::TooLarge(1_048_577)))
};

fn put_parts(alloc: Global, folder: &mut MemFolder, parts: &[Stretch]) -> Result<(), AllocError> {
    folder.put("a", &bytes_of(alloc, parts)?)
}

fn is_found(found: &Found, tagged: Tagged) -> bool {
    let (offset, length, bytes) = tagged;
    found.extent.offset == offset
        && found.extent.length == length
        && found.bytes.as_slice() == bytes
}

/// Whether the file `a` has this tag, or its tag isn't read for this reason.
fn is_answer<D: Folder>(
    alloc: Global,
    folder: &mut D,
    answer: Result<Tagged, FileTagFault>,
) -> bool {
    match (tag_of(alloc, folder), answer) {
        (Ok(found), Ok(tagged)) => is_found(&found, tagged),
        (Err(reason), Err(fault)) => reason == NoTag::Tag(fault),
        _ => false,
    }
}

/// The name of the first case with another result.
fn first_wrong(alloc: Global, folder: &mut MemFolder) -> Result<&'static str, AllocError> {
    for case in &CASES {
        put_parts(alloc, folder, case.parts)?;
        if !is_answer(alloc, folder, case.answer) {
            return Ok(case.name);
        }
    }
    Ok("")
}

fn expect_none_wrong<R: Abort + AllocGlobal>(
    rt: &R,
    folder: &mut MemFolder,
) -> Result<(), AllocError> {
    let wrong = first_wrong(rt.alloc(), folder)?;
    assert!(rt; wrong.is_empty(), "{wrong}");
    Ok(())
}

#[test]
fn tags(rt: HostRuntime) -> Result<(), Fail> {
    let mut folder = MemFolder::new(rt.alloc());
    Ok(expect_none_wrong(&rt, &mut folder)?)
}

/// The offset of the first tag of the file `a`, where there is one.
fn first_offset<D: Folder>(alloc: Global, folder: &mut D) -> Option<u64> {
    match survey(alloc, folder, "a", 1) {
        Ok(survey) => Some(first_tag(&survey)?.offset),
        Err(_) => None,
    }
}

fn first_offset_in(
    alloc: Global,
    folder: &mut MemFolder,
    parts: &[Stretch],
) -> Result<Option<u64>, AllocError> {
    put_parts(alloc, folder, parts)?;
    Ok(first_offset(alloc, folder))
}

#[test]
fn first_tags(rt: HostRuntime) -> Result<(), Fail> {
    let mut folder = MemFolder::new(rt.alloc());
    let offset = first_offset_in(rt.alloc(), &mut folder, &[ID3V2, FRAME, APE]);
    assert!(rt; offset == Ok(Some(34)));
    Ok(())
}

fn reason_in(
    alloc: Global,
    folder: &mut MemFolder,
    number: u64,
) -> Result<Option<NoTag>, AllocError> {
    put_parts(alloc, folder, &[FRAME, APE])?;
    folder.fail(Call::Read, number)?;
    Ok(no_tag_of(alloc, folder))
}

/// Why the tag of a file isn't read where this read fails.
fn reason_where_it_fails(alloc: Global, number: u64) -> Result<Option<NoTag>, AllocError> {
    let mut folder = MemFolder::new(alloc);
    reason_in(alloc, &mut folder, number)
}

/// The survey makes the first read, the second reads the tag, and there are no more.
fn reason_of(number: u64) -> Option<NoTag> {
    match number {
        1 => Some(NoTag::Survey(SurveyFault::Read)),
        2 => Some(NoTag::Tag(FileTagFault::Read(ReadFault::Failed))),
        _ => None,
    }
}

/// Makes each read fail in order.
#[test]
fn reads_that_fail(rt: HostRuntime) -> Result<(), Fail> {
    for number in 1..10 {
        let reason = reason_where_it_fails(rt.alloc(), number)?;
        assert!(rt; reason == reason_of(number), "read {number}");
    }
    Ok(())
}

/// What the file is once its tag is read, and why that fails.
struct Changed {
    later: &'static [Stretch],
    fault: FileTagFault,
}

static CHANGED: [Changed; 4] = table! {
    Changed { later, fault }
    (&[FRAME, Bytes(b"APE")], FileTagFault::Read(ReadFault::Shrunk(103, 27)))
    (&[], FileTagFault::Read(ReadFault::Shrunk(103, 24)))
    (&[FRAME, FRAME, APE], FileTagFault::Bad(24))
    (&[FRAME, EMPTY_BLOCK, FRAME], FileTagFault::Bad(24))
};

/// Whether the tag of the changed file isn't read for its reason.
fn is_seen(alloc: Global, first: &[u8], changed: &Changed) -> Result<bool, AllocError> {
    let later = bytes_of(alloc, changed.later)?;
    let mut folder = Untold::new(first.len() as u64, first, &later);
    Ok(is_answer(alloc, &mut folder, Err(changed.fault)))
}

#[test]
fn a_file_that_changes(rt: HostRuntime) -> Result<(), Fail> {
    let first = bytes_of(rt.alloc(), &[FRAME, APE])?;
    for (number, changed) in CHANGED.iter().enumerate() {
        assert!(rt; is_seen(rt.alloc(), &first, changed)?, "row {number}");
    }
    Ok(())
}
