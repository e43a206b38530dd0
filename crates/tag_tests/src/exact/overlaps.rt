//! The frames shared by files where one continues where the other ends,
//! worked out by hand: sums of the numbers in the heads, frames by division.

use exact_span::{Overlap, Played, shared};
use frame_header::{Class, Version};
use info_header::Info;
use std::process::Abort;
use std::test::Fail;
use test_files::table;

/// How many positions are after the end of the file before, where a file begins, and how many frames it has; how many frames it shares,
/// and the first that has to be alike.
struct Row {
    version: Version,
    rest: u64,
    start: u64,
    frames: u32,
    answer: Option<(u32, u32)>,
}

static ROWS: [Row; 12] = table! {
    Row { version, rest, start, frames, answer }
    (Version::One, 47, 1105, 4, Some((1, 0)))
    // Pieces: the samples up to 5,733, and those from there on, in frame 4 after a lead-in.
    (Version::One, 27, 2277, 3, Some((2, 1)))
    // No played position is in the frames that are shared, so the last one has to be alike.
    (Version::One, 0, 1152, 4, Some((1, 0)))
    (Version::One, 191, 1634, 4, None)
    (Version::One, 1199, 1105, 2, Some((2, 0)))
    (Version::One, 1199, 1105, 1, None)
    // Pieces of MPEG-2.5: the samples up to 2,400, and those from there on, in frame 4.
    (Version::TwoFive, 480, 1248, 6, Some((3, 2)))
    (Version::Two, 0, 576, 1, Some((1, 0)))
    // The most frames that are shared, and the most that have to be alike.
    (Version::One, 3457, 4607, 7, Some((7, 3)))
    (Version::Two, 3457, 4607, 14, Some((14, 7)))
    (Version::One, 18_446_744_073_709_551_615, 529, 4_294_967_295, None)
    (Version::One, 4_947_802_323_840 - 529, 529, 4_294_967_295, Some((4_294_967_295, 0)))
};

/// The frames that are shared, if the start is late enough.
fn shared_by(row: &Row) -> Option<Overlap> {
    if row.start < 529 {
        return None;
    }
    let class = Class {
        version: row.version,
        frequency_index: 0,
        channels: 2,
    };
    shared(class, row.rest, row.start, row.frames)
}

#[test]
fn shared_frames(rt: HostRuntime) -> Result<(), Fail> {
    for (place, row) in ROWS.iter().enumerate() {
        let found = shared_by(row).map(|overlap| (overlap.frames, overlap.first_alike));
        assert!(rt; found == row.answer, "row {}", place);
    }
    Ok(())
}

/// Four frames of MPEG-1 after a head with a number of frames, and with these bytes of delay and padding: whether they are counted, and
/// how many positions are after the last played one.
struct Ended {
    frames: u32,
    numbers: [u8; 3],
    counted: bool,
    rest: u64,
}

static ENDED: [Ended; 6] = table! {
    Ended { frames, numbers, counted, rest }
    (4, [0x24, 0x02, 0xd0], true, 191)
    // Padding below 529 takes nothing off.
    (4, [0x24, 0x00, 0x64], true, 0)
    (4, [0x24, 0x0f, 0xff], true, 3566)
    (3, [0x24, 0x02, 0xd0], true, 0)
    (5, [0x24, 0x08, 0x10], true, 383)
    (0, [0x24, 0x02, 0xd0], false, 0)
};

/// The fields of the head of these frames.
fn info_of(ended: &Ended) -> Info {
    let mut extension = [0; 36];
    extension[..4].copy_from_slice(b"LAME");
    extension[21..24].copy_from_slice(&ended.numbers);
    Info {
        vbr: false,
        frames: Some(ended.frames),
        bytes: None,
        table: None,
        quality: None,
        extension,
    }
}

#[test]
fn positions_after_the_end(rt: HostRuntime) -> Result<(), Fail> {
    let class = Class {
        version: Version::One,
        frequency_index: 0,
        channels: 2,
    };
    for ended in &ENDED {
        let info = info_of(ended);
        let played = Played::of(Some(&info), class, 4);
        assert!(rt; played.rest(class, 4) == ended.rest, "{}", ended.rest);
        let counted = Played::counted(Some(&info), class, 4);
        assert!(rt; counted.is_some() == ended.counted, "{}", ended.rest);
    }
    assert!(rt; Played::of(None, class, 4).rest(class, 4) == 0);
    Ok(())
}
