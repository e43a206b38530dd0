//! Spans of small files, worked out by hand: positions by the delay of the head, frames by division.
ghost use Rattle.exact_span.specs.Spans.{AreLeads};

use exact_span::{ExactPlace, Played, Span};
use frame_header::{Class, Version};
use info_header::Info;
use std::process::Abort;
use std::test::Fail;
use test_files::table;

/// A head with a number of frames, with the first bytes
/// of its extension and the bytes of delay and padding.
struct Head {
    frames: u32,
    text: [u8; 9],
    numbers: [u8; 3],
}

/// What two words give.
#[derive(Clone, Copy, Debug, PartialEq, Eq)]
enum Answer {
    /// The numbers of two samples that aren't in order or
    /// go past the end, and how many samples there are.
    Range(u64, u64, u64),
    /// The frames from one to before another, after
    /// this many lead-ins, with this delay and padding.
    Piece(u32, u32, u32, u16, u16),
}

use Answer::{Piece, Range};

/// A file without a head, or with one, and with this many frames; two
/// words; and whether the first frame's main data need a lead-in.
struct Row {
    version: Version,
    index: u8,
    head: Option<Head>,
    frames: u32,
    words: [&'static str; 2],
    own: bool,
    answer: Answer,
}

/// Two frames of MPEG-1, 44,100 Hz, without a head.
static TWO_FRAMES: [Row; 10] = table! {
    Row { version, index, head, frames, words, own, answer }
    (Version::One, 0, None, 2, ["1", "2"], false, Piece(0, 2, 0, 623, 529))
    (Version::One, 0, None, 2, ["0", "EOF"], false, Piece(0, 2, 1, 623, 529))
    (Version::One, 0, None, 2, ["0.00.02", "0.00.03"], false, Piece(0, 2, 0, 353, 1510))
    (Version::One, 0, None, 2, ["0.00.01", "0.00.02"], false, Piece(0, 1, 1, 1064, 799))
    (Version::One, 0, None, 2, ["EOF-0.0.020", "EOF-0.00.01"], false, Piece(0, 2, 0, 893, 970))
    (Version::One, 0, None, 2, ["0.0.005", "EOF"], false, Piece(0, 2, 1, 843, 529))
    (Version::One, 0, None, 2, ["1585samples", "1586samples"], false, Piece(0, 2, 0, 1056, 1247))
    (Version::One, 0, None, 2, ["0", "3"], false, Range(0, 3456, 2304))
    (Version::One, 0, None, 2, ["EOF-0.0", "EOF"], false, Range(2304, 2304, 2304))
    (Version::One, 0, None, 2, ["4294967295samples", "EOF"], false, Range(4_294_967_295, 2304, 2304))
};

/// More frames, and the other versions.
static OTHERS: [Row; 10] = table! {
    Row { version, index, head, frames, words, own, answer }
    // The last of five frames, whose main data need a lead-in.
    (Version::One, 0, None, 5, ["0.00.13", "EOF"], true, Piece(4, 5, 1, 1748, 529))
    (Version::One, 0, None, 4, ["0.0", "0.00.05"], false, Piece(0, 2, 1, 623, 628))
    (Version::One, 0, None, 4, ["2205samples", "EOF"], false, Piece(0, 4, 0, 1676, 529))
    (Version::One, 0, None, 100, ["0.0", "0.02"], false, Piece(0, 77, 1, 623, 1033))
    (Version::One, 0, None, 100, ["0.02", "EOF"], false, Piece(75, 100, 0, 1271, 529))
    (Version::One, 0, None, 76, ["0.0", "0.02"], false, Range(0, 88_200, 87_552))
    (Version::TwoFive, 2, None, 2, ["0", "EOF"], false, Piece(0, 2, 1, 47, 529))
    (Version::TwoFive, 2, None, 2, ["1", "EOF"], false, Piece(0, 2, 0, 47, 529))
    (Version::Two, 0, None, 2, ["0.00.01", "EOF"], false, Piece(0, 2, 1, 267, 529))
    (Version::Two, 1, None, 1, ["0", "1"], false, Piece(0, 1, 1, 47, 529))
};

/// Four frames with a head by LAME: delay 576 and padding 720, so 3,312 samples.
static COUNTING: [Row; 8] = table! {
    Row { version, index, head, frames, words, own, answer }
    (Version::One, 0, Some(Head { frames: 4, text: *b"LAME3.100", numbers: [0x24, 0x02, 0xd0] }), 4, ["0", "EOF"], false,
        Piece(0, 4, 0, 576, 720))
    (Version::One, 0, Some(Head { frames: 4, text: *b"LAME3.100", numbers: [0x24, 0x02, 0xd0] }), 4, ["0.00.03", "0.00.05"], false,
        Piece(1, 3, 0, 747, 675))
    (Version::One, 0, Some(Head { frames: 4, text: *b"LAME3.100", numbers: [0x24, 0x02, 0xd0] }), 4, ["EOF-0.0.010", "3312samples"], false,
        Piece(2, 4, 0, 1143, 720))
    // The delays at which the warm-up begins with the second frame and with the first.
    (Version::One, 0, Some(Head { frames: 4, text: *b"LAME3.100", numbers: [0x68, 0xf2, 0xd0] }), 4, ["0", "EOF"], false,
        Piece(1, 4, 0, 527, 720))
    (Version::One, 0, Some(Head { frames: 4, text: *b"LAME3.100", numbers: [0x68, 0xe2, 0xd0] }), 4, ["0", "EOF"], false,
        Piece(0, 4, 0, 1678, 720))
    // Padding below 529 takes nothing off.
    (Version::One, 0, Some(Head { frames: 4, text: *b"LAME3.100", numbers: [0x24, 0x00, 0x64] }), 4, ["0", "EOF"], false,
        Piece(0, 4, 0, 576, 529))
    // More delay than there are samples.
    (Version::One, 0, Some(Head { frames: 4, text: *b"LAME3.100", numbers: [0xff, 0xf2, 0xd0] }), 4, ["0", "1"], false,
        Range(0, 1152, 0))
    (Version::One, 0, Some(Head { frames: 4, text: *b"Lavf59.27", numbers: [0x24, 0x02, 0xd0] }), 4, ["EOF", "EOF"], false,
        Range(3312, 3312, 3312))
};

/// The same with another number of frames, and with other encoders.
static MISCOUNTING: [Row; 5] = table! {
    Row { version, index, head, frames, words, own, answer }
    (Version::One, 0, Some(Head { frames: 5, text: *b"LAME3.100", numbers: [0x24, 0x02, 0xd0] }), 4, ["EOF", "EOF"], false,
        Range(3503, 3503, 3503))
    (Version::One, 0, Some(Head { frames: 3, text: *b"LAME3.100", numbers: [0x24, 0x02, 0xd0] }), 4, ["EOF", "EOF"], false,
        Range(3503, 3503, 3503))
    (Version::One, 0, Some(Head { frames: 0, text: *b"LAME3.100", numbers: [0x24, 0x02, 0xd0] }), 4, ["EOF", "EOF"], false,
        Range(4608, 4608, 4608))
    (Version::One, 0, Some(Head { frames: 4, text: *b"Lavc59.37", numbers: [0x24, 0x02, 0xd0] }), 4, ["EOF", "EOF"], false,
        Range(3312, 3312, 3312))
    (Version::One, 0, Some(Head { frames: 4, text: *b"GOGO3.100", numbers: [0x24, 0x02, 0xd0] }), 4, ["1", "EOF"], false,
        Piece(0, 4, 0, 623, 529))
};

/// The fields of a head: all bytes that are neither the text nor the numbers are 11 (hex).
fn info_of(head: &Head) -> Info {
    let mut extension = [0x11; 36];
    extension[..9].copy_from_slice(&head.text);
    extension[21..24].copy_from_slice(&head.numbers);
    Info {
        vbr: false,
        frames: Some(head.frames),
        bytes: Some(2_085),
        table: None,
        quality: Some(57),
        extension,
    }
}

/// The played positions of a row's file.
fn played_of(row: &Row, class: Class) -> Played {
    match &row.head {
        Some(head) => Played::of(Some(&info_of(head)), class, row.frames),
        None => Played::of(None, class, row.frames),
    }
}

/// How many lead-ins there are.
fn leads_of(span: &Span, own: bool) -> u32
    ensures { AreLeads span.now result }
{
    if span.led || own { 1 } else { 0 }
}

/// The piece of the positions from p to before q.
fn piece_of(class: Class, p: u64, q: u64, own: bool) -> Option<Answer> {
    if p >= q || q > 2_900_000 * u64::from(class.samples()) {
        return None;
    }
    let span = Span::of(class, p, q);
    let leads = leads_of(&span, own);
    let (delay, padding) = span.numbers(class, leads);
    Some(Piece(span.first, span.last, leads, delay, padding))
}

/// What the row's words give; `None` where one of them names no place.
fn answer_of(row: &Row) -> Option<Answer> {
    if row.index > 2 {
        return None;
    }
    let class = Class {
        version: row.version,
        frequency_index: row.index,
        channels: 2,
    };
    let played = played_of(row, class);
    let length = played.length();
    let a = ExactPlace::read(row.words[0])?.sample(class, length);
    let b = ExactPlace::read(row.words[1])?.sample(class, length);
    if a < b && b <= length {
        piece_of(class, played.start + a, played.start + b, row.own)
    } else {
        Some(Range(a, b, length))
    }
}

/// The place of the first row with another result, or the number of rows.
fn first_wrong(rows: &[Row]) -> usize {
    for (place, row) in rows.iter().enumerate() {
        if answer_of(row) != Some(row.answer) {
            return place;
        }
    }
    rows.len()
}

#[test]
fn spans_without_a_head(rt: HostRuntime) -> Result<(), Fail> {
    assert!(rt;
        first_wrong(&TWO_FRAMES) == 10,
        "row {}",
        first_wrong(&TWO_FRAMES)
    );
    assert!(rt; first_wrong(&OTHERS) == 10, "row {}", first_wrong(&OTHERS));
    Ok(())
}

#[test]
fn spans_with_a_head(rt: HostRuntime) -> Result<(), Fail> {
    assert!(rt;
        first_wrong(&COUNTING) == 8,
        "row {}",
        first_wrong(&COUNTING)
    );
    assert!(rt;
        first_wrong(&MISCOUNTING) == 5,
        "row {}",
        first_wrong(&MISCOUNTING)
    );
    Ok(())
}
