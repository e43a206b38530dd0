//! Info frames of plans, and what is kept of a head: lengths by the standard's rule, entries by division, and places of
//! fields counted by hand from the layout of heads.

use frame_header::{Header, Slot};
use info_header::Info;
use laying::{Kept, info_for, kept_fields};
use outside::{Call, Folder, MemFolder, PassFault};
use slot_plan::Placed;
use std::alloc::{AllocError, Global};
use std::process::Abort;
use std::test::Fail;
use sync_survey::survey;
use test_files::files::Stretch::{Bytes, Fill};
use test_files::files::{Stretch, bytes_of};
use test_files::table;

/// MPEG-1, 128 kbit/s at 44,100 Hz in two channels: 417 bytes, 4 + 32 of them before the area.
const PLAIN: [u8; 4] = [0xff, 0xfb, 0x90, 0x00];

/// 208 bytes at 64 kbit/s, 417 at 128 kbit/s, and 418 with padding.
const RATE_64: Slot = Slot {
    rate_index: 5,
    padding: false,
};

const RATE_128: Slot = Slot {
    rate_index: 9,
    padding: true,
};

const EXTENSION: [u8; 36] = *b"LAME3.100 and 27 bytes more, in all.";

/// Whether the Info frame has the counts of two frames and `bytes` bytes.
fn has_counts(info: &Info, vbr: bool, bytes: u32) -> bool {
    info.vbr == vbr && info.frames == Some(2) && info.bytes == Some(bytes)
}

fn has_fields(info: &Info, quality: Option<u32>, extension: &[u8; 36]) -> bool {
    info.quality == quality && info.extension == *extension
}

fn has_entries(info: &Info) -> bool {
    match info.table {
        Some(table) => { table[0] == 63 && table[49] == 63 && table[50] == 127 && table[99] == 127 }
        None => false,
    }
}

/// An Info frame of 208 bytes, a lead-in of 208 and a frame of 418: 834 bytes. The entries are 256 * 208 / 834 and
/// 256 * 416 / 834, rounded down.
#[test]
fn a_lead_in_and_a_frame(rt: HostRuntime) -> Result<(), Fail> {
    let class = Header::read(PLAIN)?.class();
    let placed = [
        Placed {
            lead_in: true,
            slot: RATE_64,
            begin: 0,
        },
        Placed {
            lead_in: false,
            slot: RATE_128,
            begin: 172,
        },
    ];
    let kept = Kept {
        quality: Some(57),
        extension: EXTENSION,
    };
    let info = info_for(class, &placed, &kept);
    assert!(rt; has_counts(&info, true, 834) && has_entries(&info));
    assert!(rt; has_fields(&info, Some(57), &EXTENSION));
    Ok(())
}

/// Two frames of one bit rate: 208 + 418 + 418 bytes, and nothing is kept.
#[test]
fn one_bit_rate(rt: HostRuntime) -> Result<(), Fail> {
    let class = Header::read(PLAIN)?.class();
    let placed = [Placed {
        lead_in: false,
        slot: RATE_128,
        begin: 0,
    }; 2];
    let info = info_for(class, &placed, &Kept::none());
    assert!(rt; has_counts(&info, false, 1044));
    assert!(rt; has_fields(&info, None, &[0; 36]));
    Ok(())
}

/// A first frame, and a silent one after it.
struct Case {
    name: &'static str,
    file: &'static [Stretch],
    wanted: Kept,
}

const HEADER: Stretch = Bytes(&PLAIN);

const QUALITY: Stretch = Bytes(b"\0\0\0\x39");

const EXTENSION_BYTES: Stretch = Bytes(&EXTENSION);

const SILENT: Stretch = Stretch::Frame(0, 0);

static CASES: [Case; 4] = table! {
    Case { name, file, wanted }
    ("all fields",
        &[HEADER, Fill(0, 32), Bytes(b"Info\0\0\0\x0f"), Fill(0, 108), QUALITY, EXTENSION_BYTES, Fill(0, 225), SILENT],
        Kept { quality: Some(57), extension: EXTENSION })
    ("a quality alone",
        &[HEADER, Fill(0, 32), Bytes(b"Xing\0\0\0\x08"), QUALITY, EXTENSION_BYTES, Fill(0, 333), SILENT],
        Kept { quality: Some(57), extension: EXTENSION })
    ("no quality",
        &[HEADER, Fill(0, 32), Bytes(b"Info\0\0\0\x07"), Fill(0, 108), EXTENSION_BYTES, Fill(0, 229), SILENT],
        Kept { quality: None, extension: EXTENSION })
    ("no head",
        &[HEADER, Fill(0, 32), Bytes(b"Inf0\0\0\0\x0f"), Fill(0, 108), QUALITY, EXTENSION_BYTES, Fill(0, 225), SILENT],
        Kept { quality: None, extension: [0; 36] })
};

/// What is kept of the head of the file `a`; `None` where the file has no survey.
fn kept_of<D: Folder>(alloc: Global, folder: &mut D) -> Option<Result<Kept, PassFault>> {
    let Ok(survey) = survey(alloc, folder, "a", 100) else {
        return None;
    };
    Some(kept_fields(folder, "a", &survey))
}

fn is_kept<D: Folder>(alloc: Global, folder: &mut D, wanted: &Kept) -> bool {
    match kept_of(alloc, folder) {
        Some(Ok(kept)) => kept == *wanted,
        _ => false,
    }
}

fn keeps_in(alloc: Global, folder: &mut MemFolder, case: &Case) -> Result<bool, AllocError> {
    folder.put("a", &bytes_of(alloc, case.file)?)?;
    Ok(is_kept(alloc, folder, &case.wanted))
}

fn keeps(alloc: Global, case: &Case) -> Result<bool, AllocError> {
    let mut folder = MemFolder::new(alloc);
    keeps_in(alloc, &mut folder, case)
}

#[test]
fn heads(rt: HostRuntime) -> Result<(), Fail> {
    for case in &CASES {
        assert!(rt; keeps(rt.alloc(), case)?, "{}", case.name);
    }
    Ok(())
}

/// Whether something is kept of the head of the file `a`; `None` where the file has no survey.
fn answer_of<D: Folder>(alloc: Global, folder: &mut D) -> Option<Result<(), PassFault>> {
    match kept_of(alloc, folder)? {
        Ok(_) => Some(Ok(())),
        Err(fault) => Some(Err(fault)),
    }
}

fn answer_in(
    alloc: Global,
    folder: &mut MemFolder,
    file: &[u8],
    number: u64,
) -> Result<Option<Result<(), PassFault>>, AllocError> {
    folder.put("a", file)?;
    folder.fail(Call::Read, number)?;
    Ok(answer_of(alloc, folder))
}

/// Whether something is kept where this read fails.
fn answer_where_it_fails(
    alloc: Global,
    file: &[u8],
    number: u64,
) -> Result<Option<Result<(), PassFault>>, AllocError> {
    let mut folder = MemFolder::new(alloc);
    answer_in(alloc, &mut folder, file, number)
}

/// Whether each read that fails is reported: the reads of the survey, then the one of the head, and then there
/// are no more.
fn are_told(alloc: Global, file: &[u8]) -> Result<bool, AllocError> {
    let mut is_refused = false;
    for number in 1..10 {
        let is_told = match answer_where_it_fails(alloc, file, number)? {
            Some(Err(fault)) => {
                is_refused = true;
                fault == PassFault::Read
            }
            Some(Ok(_)) => is_refused,
            None => !is_refused,
        };
        if !is_told {
            return Ok(false);
        }
    }
    Ok(is_refused)
}

/// Makes each read fail in order.
#[test]
fn reads_that_fail(rt: HostRuntime) -> Result<(), Fail> {
    let file = bytes_of(rt.alloc(), CASES[0].file)?;
    assert!(rt; are_told(rt.alloc(), &file)?);
    Ok(())
}
