//! Heard positions of files of which only some frames are written, worked out by hand: a place by counting the frames that are written
//! before it, delay and padding by what is before the first heard position and after the last.

use arrayvec::ArrayVec;
use exact_span::{Heard, Played, WrittenFrames, heard};
use frame_header::{Class, Version};
use std::process::Abort;
use std::test::Fail;
use test_files::table;

/// The played positions of a file, from the first to before the end; each stretch of its frames that is written, as its first frame,
/// the frame after its last one, and its place; and how many frames are written in all, lead-ins among them. Then the first heard
/// position and the end of the last, in what is written, and the delay and the padding.
struct Row {
    version: Version,
    played: (u64, u64),
    stretches: &'static [[u32; 3]],
    frames: u32,
    heard: Option<(u64, u64)>,
    numbers: Option<(u16, u16)>,
}

/// Four frames of MPEG-1 and eight of MPEG-2.5, with delay 576 and padding 720.
static ROWS: [Row; 8] = table! {
    Row { version, played, stretches, frames, heard, numbers }
    (Version::One, (1105, 4417), &[[0, 4, 0]], 4, Some((1105, 4417)), Some((576, 720)))
    (Version::One, (1105, 4417), &[[0, 1, 0], [2, 4, 1]], 3, Some((1105, 3265)), Some((576, 720)))
    // The first heard position is the first of all, so no delay is small enough.
    (Version::One, (1105, 4417), &[[1, 4, 0]], 3, Some((0, 3265)), Some((0, 720)))
    (Version::One, (1105, 4417), &[[0, 3, 0]], 3, Some((1105, 3456)), Some((576, 529)))
    // A lead-in in the midst, and one that is before the first sample because the delay is 3,000.
    (Version::One, (1105, 4417), &[[0, 2, 0], [3, 4, 3]], 4, Some((1105, 4417)), Some((576, 720)))
    (Version::One, (3529, 4417), &[[0, 2, 0], [3, 4, 3]], 4, Some((3529, 4417)), Some((3000, 720)))
    (Version::TwoFive, (1105, 4417), &[[0, 2, 0], [5, 8, 2]], 5, Some((1105, 2689)), Some((576, 720)))
    (Version::TwoFive, (1105, 4417), &[[0, 1, 0], [2, 8, 1]], 7, Some((576, 3841)), Some((47, 720)))
};

/// Four frames of MPEG-1 with delay 2,000, whose first sample is in the third, or with padding 1,728, whose last sample is there.
static LATE: [Row; 7] = table! {
    Row { version, played, stretches, frames, heard, numbers }
    (Version::One, (2529, 4417), &[[0, 1, 0], [2, 4, 1]], 3, Some((1377, 3265)), Some((848, 720)))
    (Version::One, (2529, 4417), &[[1, 4, 0]], 3, Some((1377, 3265)), Some((848, 720)))
    (Version::One, (2529, 4417), &[[0, 2, 0], [3, 4, 2]], 3, Some((2304, 3265)), Some((1775, 720)))
    (Version::One, (2529, 4417), &[[1, 2, 0], [3, 4, 1]], 2, Some((1152, 2113)), Some((623, 720)))
    (Version::One, (1105, 3409), &[[0, 1, 0], [2, 4, 1]], 3, Some((1105, 2257)), Some((576, 1728)))
    (Version::One, (1105, 3409), &[[0, 2, 0], [3, 4, 2]], 3, Some((1105, 2304)), Some((576, 1681)))
    (Version::One, (1105, 3409), &[[0, 3, 0]], 3, Some((1105, 3409)), Some((576, 576)))
};

/// Nothing is heard, or a number is the greatest of 12 bits, or the next one. Two rows have a lead-in in front.
static ENDS: [Row; 8] = table! {
    Row { version, played, stretches, frames, heard, numbers }
    (Version::One, (2529, 4417), &[[0, 2, 0]], 2, None, None)
    (Version::One, (1105, 3409), &[[3, 4, 0]], 1, None, None)
    (Version::One, (4624, 4417), &[[0, 3, 0]], 3, None, None)
    (Version::One, (1105, 4417), &[], 1, None, None)
    (Version::One, (3472, 7873), &[[0, 5, 1], [6, 7, 6]], 7, Some((4624, 7873)), Some((4095, 720)))
    (Version::One, (3473, 7873), &[[0, 5, 1], [6, 7, 6]], 7, Some((4625, 7873)), None)
    (Version::One, (529, 1042), &[[0, 4, 0]], 4, Some((529, 1042)), Some((0, 4095)))
    (Version::One, (529, 1041), &[[0, 4, 0]], 4, Some((529, 1041)), None)
};

/// The stretches of a row.
fn written_of(stretches: &[[u32; 3]]) -> ArrayVec<WrittenFrames, 2> {
    let mut written = ArrayVec::new();
    for [from, to, at] in stretches {
        let _ = written.try_push(WrittenFrames {
            from: *from,
            to: *to,
            at: *at,
        });
    }
    written
}

/// Whether a row's positions are where they should be, with the numbers that they should have.
fn is_heard(row: &Row) -> bool {
    let class = Class {
        version: row.version,
        frequency_index: 0,
        channels: 2,
    };
    let played = Played {
        start: row.played.0,
        end: row.played.1,
    };
    let written = written_of(row.stretches);
    let found = heard(&played, class, written.as_slice());
    found == row.heard.map(|(first, end)| Heard { first, end })
        && found.and_then(|heard| heard.numbers(class, row.frames)) == row.numbers
}

/// The place of the first row with another result, or the number of rows.
fn first_wrong(rows: &[Row]) -> usize {
    for (place, row) in rows.iter().enumerate() {
        if !is_heard(row) {
            return place;
        }
    }
    rows.len()
}

#[test]
fn heard_positions(rt: HostRuntime) -> Result<(), Fail> {
    assert!(rt; first_wrong(&ROWS) == 8, "row {}", first_wrong(&ROWS));
    assert!(rt; first_wrong(&LATE) == 7, "row {}", first_wrong(&LATE));
    assert!(rt; first_wrong(&ENDS) == 8, "row {}", first_wrong(&ENDS));
    Ok(())
}
