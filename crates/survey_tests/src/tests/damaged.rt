//! Damaged files, and what is read of them. All of it was worked out by hand.

use outside::MemFolder;
use salvage::{Damaged, Gap, read_damaged};
use std::alloc::{AllocError, Global};
use std::process::Abort;
use std::test::Fail;
use sync_survey::{Head, Piece, Row, SurveyFault};
use test_files::files::Stretch::{Bytes, Fill, Frames};
use test_files::files::{APE, ID3V1, ID3V1_REST, ID3V2, ID3V2_REST, Stretch, bytes_of};
use test_files::frame;
use test_files::frames::{Frame, HEAD, OVERFULL, PROTECTED_G, PROTECTED_HEAD, PROTECTED_Z, Z};

/// A damaged file, and what is read of it.
struct Case {
    file: &'static [Stretch],
    /// The offsets of the frames, and whether each becomes an empty one.
    frames: &'static [(u64, bool)],
    gaps: &'static [Gap],
    /// The offsets of the blocks.
    blocks: &'static [u64],
    /// The offset of the head.
    head: Option<u64>,
}

/// Two frames: the main data of the second begin 81
/// bytes before its own area, in the area of the first.
const FIRST: Stretch = Stretch::Frame(0, 2400);

const SECOND: Stretch = Stretch::Frame(81, 3200);

/// The first frame's third byte is 00, so the main data
/// of the second frame that are in the first are lost.
static NO_FIRST: Case = Case {
    file: &[Bytes(&[0xff, 0xfb, 0x00, 0x00]), Fill(0, 413), SECOND],
    frames: &[(417, true)],
    gaps: &[Gap {
        offset: 0,
        length: 417,
    }],
    blocks: &[],
    head: None,
};

/// The second frame is one byte short.
static TRUNCATED: Case = Case {
    file: &[FIRST, Bytes(&[0xff, 0xfb, 0x90, 0x00]), Fill(0, 412)],
    frames: &[(0, false)],
    gaps: &[Gap {
        offset: 417,
        length: 416,
    }],
    blocks: &[],
    head: None,
};

/// Junk at the end, in which neither a frame nor a block begins.
static GAP_AT_END: Case = Case {
    file: &[FIRST, SECOND, Fill(0, 7), Fill(0x55, 70_000)],
    frames: &[(0, false), (417, false)],
    gaps: &[Gap {
        offset: 841,
        length: 70_000,
    }],
    blocks: &[],
    head: None,
};

/// One frame between two stretches of junk: its main data begin before its own run of frames. The block after it is an anchor.
static BETWEEN: Case = Case {
    file: &[
        FIRST,
        Fill(0x55, 100),
        SECOND,
        APE,
        Fill(0x55, 5),
        FIRST,
        SECOND,
    ],
    frames: &[(0, false), (517, true), (1018, false), (1435, false)],
    gaps: &[
        Gap {
            offset: 417,
            length: 100,
        },
        Gap {
            offset: 1013,
            length: 5,
        },
    ],
    blocks: &[934],
    head: None,
};

/// A block in a gap isn't read; one after the last frame is.
static BLOCK_IN_GAP: Case = Case {
    file: &[
        FIRST,
        Fill(0x55, 3),
        ID3V2,
        ID3V2_REST,
        FIRST,
        SECOND,
        ID3V1,
        ID3V1_REST,
    ],
    frames: &[(0, false), (460, false), (877, false)],
    gaps: &[Gap {
        offset: 417,
        length: 43,
    }],
    blocks: &[1294],
    head: None,
};

/// G with a check word that is wrong.
const WRONG_G: Frame = frame! { word: Some(0x11a3), ..PROTECTED_G };

/// A protected frame whose check word is wrong.
static WRONG_WORD: Case = Case {
    file: &[Frames(&[PROTECTED_Z, PROTECTED_G, WRONG_G, PROTECTED_G, PROTECTED_Z])],
    frames: &[(0, false), (417, false), (1251, false), (1668, false)],
    gaps: &[Gap {
        offset: 834,
        length: 417,
    }],
    blocks: &[],
    head: None,
};

/// The first frame is a head, whatever its check word is; one after it is a frame.
static HEADS: Case = Case {
    file: &[
        ID3V2,
        ID3V2_REST,
        Fill(0x55, 9),
        Frames(&[PROTECTED_HEAD, HEAD, Z]),
    ],
    frames: &[(466, false), (883, false)],
    gaps: &[Gap {
        offset: 40,
        length: 9,
    }],
    blocks: &[0],
    head: Some(49),
};

/// The second frame begins one byte before the end of the first frame's main data, and doesn't move that
/// end: the third begins there. The fourth has more bits than its own area.
static UNSOUND: Case = Case {
    file: &[
        FIRST,
        Stretch::Frame(82, 3200),
        Stretch::Frame(462, 3200),
        Frames(&[OVERFULL, Z]),
    ],
    frames: &[
        (0, false),
        (417, true),
        (834, false),
        (1251, true),
        (1668, false),
    ],
    gaps: &[],
    blocks: &[],
    head: None,
};

/// MPEG-2, 24,000 Hz, 8 kbit/s, mono: 11 bytes of main data, and main_data_begin is 0, or 11.
const SHORT: Frame =
    frame! { header: [0xff, 0xf3, 0x14, 0xc0], word: None, side: &[], area: &[], length: 24 };

const SHORT_BACK: Frame = frame! { side: &[11], ..SHORT };

/// A frame of MPEG-1 between such frames isn't part of the stream.
static MPEG_2: Case = Case {
    file: &[
        Frames(&[SHORT, SHORT_BACK]),
        Fill(0x55, 3),
        Frames(&[SHORT_BACK, SHORT_BACK, Z, SHORT]),
    ],
    frames: &[
        (0, false),
        (24, false),
        (51, true),
        (75, false),
        (516, false),
    ],
    gaps: &[
        Gap {
            offset: 48,
            length: 3,
        },
        Gap {
            offset: 99,
            length: 417,
        },
    ],
    blocks: &[],
    head: None,
};

/// MPEG-2.5, 8,000 Hz, 8 kbit/s, mono, without a check word and with the right one.
const SLOW: Frame =
    frame! { header: [0xff, 0xe3, 0x18, 0xc0], word: None, side: &[], area: &[], length: 72 };

const SLOW_PROTECTED: Frame =
    frame! { header: [0xff, 0xe2, 0x18, 0xc0], word: Some(0x11d2), ..SLOW };

/// The same frame with a wrong check word.
const SLOW_WRONG: Frame = frame! { word: Some(0x11d3), ..SLOW_PROTECTED };

static MPEG_2_5: Case = Case {
    file: &[Frames(&[SLOW, SLOW_PROTECTED, SLOW_WRONG, SLOW])],
    frames: &[(0, false), (72, false), (216, false)],
    gaps: &[Gap {
        offset: 144,
        length: 72,
    }],
    blocks: &[],
    head: None,
};

/// Files that nothing is read of, and the offset at which their front ends.
static NOTHING: [(&[Stretch], u64); 4] = [
    (&[], 0),
    (&[Fill(0x55, 70_000)], 0),
    (&[ID3V2, ID3V2_REST, Fill(0, 2), Frames(&[HEAD])], 42),
    (
        &[ID3V2, ID3V2_REST, Frames(&[HEAD]), Fill(0x55, 70_000)],
        40,
    ),
];

/// What is read of the file, where something is.
fn read(alloc: Global, parts: &[Stretch]) -> Result<Result<Damaged, SurveyFault>, AllocError> {
    let file = bytes_of(alloc, parts)?;
    let mut folder = MemFolder::new(alloc);
    folder.put("song", &file)?;
    Ok(read_damaged(alloc, &mut folder, "song"))
}

fn same_rows(rows: &[Row], wanted: &[(u64, bool)]) -> bool {
    rows.len() == wanted.len()
        && rows.iter().zip(wanted).all(|(row, (at, lost))| u64::from(row.offset()) == *at
            && row.lost() == *lost)
}

fn same_head(head: Option<Head>, wanted: Option<u64>) -> bool {
    match head {
        Some(head) => wanted == Some(head.offset),
        None => wanted.is_none(),
    }
}

fn same_blocks(blocks: &[Piece], wanted: &[u64]) -> bool {
    blocks.len() == wanted.len()
        && blocks
            .iter()
            .zip(wanted)
            .all(|(block, at)| block.offset == *at)
}

/// Whether the case's file is read as wanted.
fn holds(alloc: Global, case: &Case) -> Result<bool, AllocError> {
    let Ok(damaged) = read(alloc, case.file)? else {
        return Ok(false);
    };
    Ok(
        same_rows(damaged.frames(), case.frames)
            && damaged.gaps() == case.gaps
            && same_blocks(damaged.blocks(), case.blocks)
            && same_head(damaged.head(), case.head)
            && damaged.survey().frames().len() == case.frames.len(),
    )
}

fn expect<R: Abort>(rt: &R, alloc: Global, case: &Case) -> Result<(), Fail> {
    assert!(rt; holds(alloc, case)?);
    Ok(())
}

#[test]
fn frames_that_point_into_gaps(rt: HostRuntime) -> Result<(), Fail> {
    expect(&rt, rt.alloc(), &NO_FIRST)?;
    expect(&rt, rt.alloc(), &BETWEEN)?;
    expect(&rt, rt.alloc(), &UNSOUND)
}

#[test]
fn gaps(rt: HostRuntime) -> Result<(), Fail> {
    expect(&rt, rt.alloc(), &TRUNCATED)?;
    expect(&rt, rt.alloc(), &GAP_AT_END)?;
    expect(&rt, rt.alloc(), &BLOCK_IN_GAP)
}

#[test]
fn check_words(rt: HostRuntime) -> Result<(), Fail> {
    expect(&rt, rt.alloc(), &WRONG_WORD)?;
    expect(&rt, rt.alloc(), &HEADS)
}

#[test]
fn other_versions(rt: HostRuntime) -> Result<(), Fail> {
    expect(&rt, rt.alloc(), &MPEG_2)?;
    expect(&rt, rt.alloc(), &MPEG_2_5)
}

/// Whether nothing is read of the file because it has no frame.
fn is_without_frame(alloc: Global, parts: &[Stretch], front_end: u64) -> Result<bool, AllocError> {
    Ok(match read(alloc, parts)? {
        Ok(_) => false,
        Err(fault) => fault == SurveyFault::NoFrame(front_end),
    })
}

fn expect_nothing<R: Abort>(rt: &R, alloc: Global) -> Result<(), Fail> {
    for (parts, front_end) in &NOTHING {
        assert!(rt; is_without_frame(alloc, parts, *front_end)?);
    }
    Ok(())
}

#[test]
fn no_frame(rt: HostRuntime) -> Result<(), Fail> {
    expect_nothing(&rt, rt.alloc())
}
