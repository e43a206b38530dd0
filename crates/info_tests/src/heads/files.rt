//! Info frames of whole files, worked out by hand: the lengths of frames by the standard's rule, and entries by division.

use arrayvec::ArrayVec;
use frame_header::{Class, Header, NotHeader, Slot};
use info_header::{Info, info_over};
use std::process::Abort;
use std::test::Fail;
use test_files::table;

/// MPEG-1, 44,100 Hz, two channels, at 32, 112 and 128 kbit/s: 104, 365 and 417 bytes. The Info frame has 208.
const RATE_32: [u8; 4] = [0xff, 0xfb, 0x10, 0x00];

const RATE_112: [u8; 4] = [0xff, 0xfb, 0x80, 0x00];

const RATE_128: [u8; 4] = [0xff, 0xfb, 0x90, 0x00];

/// MPEG-2, 24,000 Hz, one channel, at 80 and 8 kbit/s: 240 and 24 bytes. The Info frame has 169.
const LOW_80: [u8; 4] = [0xff, 0xf3, 0x94, 0xc0];

const LOW_8: [u8; 4] = [0xff, 0xf3, 0x14, 0xc0];

/// The frames of a file, and the fields of its Info frame.
struct Case {
    frames: &'static [[u8; 4]],
    vbr: bool,
    bytes: u32,
    /// Some entries, by their places.
    entries: &'static [Entry],
}

struct Entry {
    at: usize,
    value: u8,
}

static CASES: [Case; 7] = table! {
    Case { frames, vbr, bytes, entries }
    (&[RATE_128, RATE_128], false, 1042,
        &[Entry { at: 0, value: 51 }, Entry { at: 49, value: 51 }, Entry { at: 50, value: 153 }, Entry { at: 99, value: 153 }])
    (&[RATE_32, RATE_128], true, 729,
        &[Entry { at: 0, value: 73 }, Entry { at: 49, value: 73 }, Entry { at: 50, value: 109 }, Entry { at: 99, value: 109 }])
    (&[RATE_32, RATE_32], false, 416, &[Entry { at: 49, value: 128 }, Entry { at: 50, value: 192 }])
    (&[RATE_112, RATE_128], true, 990, &[Entry { at: 49, value: 53 }, Entry { at: 50, value: 148 }])
    (&[RATE_128, RATE_128, RATE_32, RATE_128], true, 1563,
        &[Entry { at: 24, value: 34 }, Entry { at: 25, value: 102 }, Entry { at: 50, value: 170 }, Entry { at: 75, value: 187 }])
    // A third of the entries each: place 33 is the last of frame 0, and 67 the first of frame 2.
    (&[RATE_128, RATE_128, RATE_128], false, 1459,
        &[Entry { at: 33, value: 36 }, Entry { at: 34, value: 109 }, Entry { at: 66, value: 109 }, Entry { at: 67, value: 182 }])
    (&[LOW_80, LOW_8], true, 433, &[Entry { at: 49, value: 99 }, Entry { at: 50, value: 241 }])
};

/// The class of the last of these frames, and their slots.
fn slots_of(frames: &[[u8; 4]]) -> Result<(Class, ArrayVec<Slot, 4>), NotHeader> {
    let mut slots = ArrayVec::new();
    let mut class = Header::read(RATE_128)?.class();
    for frame in frames {
        let header = Header::read(*frame)?;
        class = header.class();
        let _ = slots.try_push(header.slot);
    }
    Ok((class, slots))
}

/// Whether the table has these entries.
fn has_entries(table: &[u8; 100], entries: &[Entry]) -> bool {
    entries
        .iter()
        .all(|entry| table.get(entry.at) == Some(&entry.value))
}

fn is_count(said: Option<u32>, count: usize) -> bool {
    match said {
        Some(said) => said as usize == count,
        None => false,
    }
}

/// Whether the Info frame has the fields of the case.
fn says(info: &Info, case: &Case) -> bool {
    let Some(table) = info.table else {
        return false;
    };
    info.vbr == case.vbr
        && info.bytes == Some(case.bytes)
        && is_count(info.frames, case.frames.len())
        && has_entries(&table, case.entries)
}

#[test]
fn infos_of_files(rt: HostRuntime) -> Result<(), Fail> {
    for case in &CASES {
        let (class, slots) = slots_of(case.frames)?;
        assert!(rt; slots.len() == case.frames.len());
        let info = info_over(class, slots.as_slice());
        assert!(rt; says(&info, case), "{} bytes", case.bytes);
    }
    Ok(())
}
