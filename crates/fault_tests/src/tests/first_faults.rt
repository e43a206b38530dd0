//! The first faults of small files: worked out by hand, by the plain reading, and by the survey.

use super::shapes::survey_fault;
use super::stretches::{HEAD, OTHER_CLASS, SHORT, SHORT_LOUD, SHORT_OF_FOUR, Z};
use super::walks;
use plain_reading::first_fault;
use std::alloc::{AllocError, AllocGlobal, Global};
use std::process::Abort;
use std::test::Fail;
use sync_survey::SurveyFault;
use test_files::files::Stretch::{Bytes, Fill, Filled};
use test_files::files::{Stretch, bytes_of};
use test_files::{end_to_end, table};

/// A file, how many frames it may have, and its first fault.
struct Case {
    name: &'static str,
    file: &'static [Stretch],
    allowed: u32,
    answer: Option<SurveyFault>,
}

/// More frames than any file here has.
const MANY: u32 = 100;

/// The front of a frame with four times 600 bits.
const FRONT_0: Stretch = Filled(
    b"\xff\xfb\x90\0\0\0\x02\x58\0\x32\0\0\0\0\x4b\0\x06\x40\0\0\0\x09\x60\0\xc8\0\0\0\x01\x2c\0\x19",
    0,
    4,
);

/// The front of a frame with main_data_begin 81 and four times 800 bits.
const FRONT_1: Stretch = Filled(
    b"\xff\xfb\x90\0\x28\x80\x03\x20\0\x32\0\0\0\0\x64\0\x06\x40\0\0\0\x0c\x80\0\xc8\0\0\0\x01\x90\0\x19",
    0,
    4,
);

/// Two frames with 300 and 400 bytes of main data, joined, each byte 55 (hex).
pub const TWO_FRAMES: &[Stretch] = &end_to_end! {
    FRONT_0, Fill(0x55, 381),
    FRONT_1, Fill(0x55, 319), Fill(0, 62)
};

/// The front of a frame with 762, 762, 762 and 763 bits.
const FRONT_OF_3049: Stretch = Filled(
    b"\xff\xfb\x90\0\0\0\x02\xfa\0\x32\0\0\0\0\x5f\x40\x06\x40\0\0\0\x0b\xe8\0\xc8\0\0\0\x01\x7d\x80\x19",
    0,
    4,
);

/// Like `SHORT`, with main_data_begin 12 and 352 bits, more than 23 bytes.
const SHORT_TOO_LONG: Stretch = Filled(b"\xff\xf3\x14\xc0\x0c\x0b", 0, 18);

/// Like `SHORT`, with a check word and thus an area of 9 bytes, and with 8 bits of gain 100. The right words
/// here were worked out independently, by long division.
const PROTECTED: Stretch = Filled(b"\xff\xf2\x14\xc0\xe9\x52\0\0\x40\x01\x90", 0, 13);

/// Like `SHORT`, with a check word.
const PROTECTED_SILENT: Stretch = Filled(b"\xff\xf2\x14\xc0\xee\xd2", 0, 18);

/// Like `PROTECTED`, with a wrong word.
const WRONG: Stretch = Filled(b"\xff\xf2\x14\xc0\xe9\x53\0\0\x40\x01\x90", 0, 13);

/// Like `PROTECTED`, with main_data_begin 1, for which its word is wrong.
const WRONG_AND_BACK: Stretch = Filled(b"\xff\xf2\x14\xc0\xe9\x52\x01\0\x40\x01\x90", 0, 13);

/// Like `PROTECTED`, with 73 bits.
const PROTECTED_OF_73: Stretch = Filled(b"\xff\xf2\x14\xc0\x41\xdd\0\x02\x48\x01\x90", 0, 13);

/// Like `PROTECTED`, with main_data_begin 9 and 144 bits, which fill two areas.
const PROTECTED_OF_144: Stretch = Filled(b"\xff\xf2\x14\xc0\x50\x2a\x09\x04\x80\x01\x90", 0, 13);

/// Like `PROTECTED`, with main_data_begin 10 and 80 bits.
const PROTECTED_AND_10_BACK: Stretch = Filled(
    b"\xff\xf2\x14\xc0\x3a\x9e\x0a\x02\x80\x01\x90",
    0,
    13,
);

/// The fronts of frames of MPEG-1, 48,000 Hz, 32 kbit/s, one channel: 96 bytes, with an area of 75. The
/// granules have 300 and 300 bits, and 300 and 301.
const MONO_OF_600: Stretch = Filled(b"\xff\xfb\x14\xc0\0\0\x04\xb0\0\0\0\0\0\0\x96", 0, 6);

const MONO_OF_601: Stretch = Filled(b"\xff\xfb\x14\xc0\0\0\x04\xb0\0\0\0\0\0\0\x96\x80", 0, 5);

/// Frames of MPEG-2, 24,000 Hz, 8 kbit/s, stereo: 24 bytes, with an area of 3. The channels have 8 and 16
/// bits, and 8 and 17.
const LOWER_OF_24: Stretch = Filled(b"\xff\xf3\x14\0\0\0\x20\0\0\0\0\0\0\0\x80", 0, 9);

const LOWER_OF_25: Stretch = Filled(b"\xff\xf3\x14\0\0\0\x20\0\0\0\0\0\0\0\x88", 0, 9);

/// Frames of MPEG-2.5, 12,000 Hz, 8 kbit/s, one channel: 48 bytes, with an area of 35. The first has 280 bits.
const SLOW_OF_280: Stretch = Bytes(&[0xff, 0xe3, 0x14, 0xc0, 0x00, 0x08, 0xc0]);

const SLOW_OF_281: Stretch = Bytes(&[0xff, 0xe3, 0x14, 0xc0, 0x00, 0x08, 0xc8]);

const SLOW_REST: Stretch = Fill(0, 41);

/// The front of a protected head, whose area has 379 bytes. Its check word is wrong.
const PROTECTED_HEAD_FRONT: Stretch = Bytes(
    b"\xff\xfa\x90\0\x12\x34\0\0\0\0\0\0\0\0\0\0\0\0\0\0\0\0\0\0\0\0\0\0\0\0\0\0\0\0\0\0\0\0Xing",
);

const PROTECTED_HEAD_REST: Stretch = Fill(0, 375);

/// Where main data may begin, and heads.
static BEGINS: [Case; 11] = table! {
    Case { name, file, allowed, answer }
    ("main data one behind the other", TWO_FRAMES, MANY, None)
    ("a lost frame counts", &[Stretch::Frame(10, 0), Z], 1, Some(SurveyFault::TooManyFrames(417)))
    ("main data that begin with the first area", &[Z, Stretch::Frame(381, 8)], MANY, None)
    ("a silent frame that points too far behind main data", &[Stretch::Frame(0, 8), Stretch::Frame(382, 0)],
        MANY, Some(SurveyFault::BackPointer(417, 382, 381)))
    ("header and check word are no main data", &[PROTECTED, PROTECTED_AND_10_BACK], MANY,
        Some(SurveyFault::BackPointer(24, 10, 9)))
    ("the area of a head is main data", &[HEAD, Stretch::Frame(381, 8)], MANY, None)
    ("the class of a lost frame", &[SHORT, Stretch::Frame(382, 8)], MANY, Some(SurveyFault::Mixed(24)))
    ("the area of a protected head, whose check word may be wrong",
        &[PROTECTED_HEAD_FRONT, PROTECTED_HEAD_REST, Stretch::Frame(379, 8)], MANY, None)
    ("behind a lost frame main data are judged", &[SHORT_OF_FOUR, SHORT_LOUD, SHORT_OF_FOUR], MANY,
        Some(SurveyFault::BackPointer(48, 33, 22)))
    ("a head alone", &[HEAD], 0, Some(SurveyFault::NoFrame(417)))
    ("a head alone, with zero bytes behind it", &[HEAD, Fill(0, 3)], 0,
        Some(SurveyFault::NoFrame(420)))
};

/// Where main data may begin and end.
static ENDS: [Case; 19] = table! {
    Case { name, file, allowed, answer }
    ("main data that begin one byte before those before end",
        &[FRONT_0, Fill(0x55, 381), Stretch::Frame(82, 3200)], MANY, Some(SurveyFault::Overlap(417)))
    ("a silent frame is judged", &[Stretch::Frame(0, 3048), Stretch::Frame(1, 0)], MANY,
        Some(SurveyFault::Overlap(417)))
    ("a silent frame moves no end", &[Stretch::Frame(0, 2400), Z, Stretch::Frame(462, 8)], MANY, None)
    ("nor hides one", &[Stretch::Frame(0, 2400), Z, Stretch::Frame(463, 8)], MANY,
        Some(SurveyFault::Overlap(834)))
    ("bits that fill no byte end a byte", &[Stretch::Frame(0, 2401), Stretch::Frame(81, 8)], MANY,
        Some(SurveyFault::Overlap(417)))
    ("an area filled", &[Stretch::Frame(0, 3048)], MANY, None)
    ("one bit more", &[FRONT_OF_3049, Fill(0x55, 381)], MANY,
        Some(SurveyFault::Overrun(0, 3049, 3048)))
    ("the room before the own area is filled", &[Z, Stretch::Frame(19, 3200)], MANY, None)
    ("one byte less of it", &[Z, Stretch::Frame(18, 3200)], MANY, Some(SurveyFault::Overrun(417, 3200, 3192)))
    ("one channel, MPEG-2: four areas filled", &[SHORT, SHORT, SHORT, SHORT_OF_FOUR], MANY, None)
    ("the same with an area less", &[SHORT_LOUD, SHORT, SHORT_OF_FOUR], MANY,
        Some(SurveyFault::BackPointer(48, 33, 22)))
    ("two areas without their check words, filled", &[PROTECTED_SILENT, PROTECTED_OF_144], MANY, None)
    ("two granules of one channel that fill the area", &[MONO_OF_600, Fill(0x55, 75)], MANY, None)
    ("one bit more in the second", &[MONO_OF_601, Fill(0x55, 75)], MANY,
        Some(SurveyFault::Overrun(0, 601, 600)))
    ("two channels of one granule that fill the area", &[LOWER_OF_24], MANY, None)
    ("one bit more in the second", &[LOWER_OF_25], MANY, Some(SurveyFault::Overrun(0, 25, 24)))
    ("MPEG-2.5: an area filled", &[SLOW_OF_280, SLOW_REST], MANY, None)
    ("one bit more", &[SLOW_OF_281, SLOW_REST], MANY, Some(SurveyFault::Overrun(0, 281, 280)))
    ("MPEG-2.5 behind MPEG-2", &[SHORT, SLOW_OF_280, SLOW_REST], MANY, Some(SurveyFault::Mixed(24)))
};

/// Check words, classes, and how many frames there may be.
static FRAMES: [Case; 9] = table! {
    Case { name, file, allowed, answer }
    ("a wrong check word", &[PROTECTED, WRONG], MANY, Some(SurveyFault::CheckWord(24, 0xe953, 0xe952)))
    ("73 bits in 9 bytes", &[PROTECTED_OF_73], MANY, Some(SurveyFault::Overrun(0, 73, 72)))
    ("a second class in the middle", &[Z, OTHER_CLASS, Fill(0, 380), Z], MANY,
        Some(SurveyFault::Mixed(417)))
    ("a class other than the head's",
        &[HEAD, OTHER_CLASS, Fill(0, 380), OTHER_CLASS, Fill(0, 380)], MANY,
        Some(SurveyFault::Mixed(417)))
    ("two frames of none", &[Z, Z], 0, Some(SurveyFault::TooManyFrames(0)))
    ("two frames of one", &[Z, Z], 1, Some(SurveyFault::TooManyFrames(417)))
    ("two frames of two", &[Z, Z], 2, None)
    ("a head is no frame", &[HEAD, Z], 1, None)
    ("a frame behind a head", &[HEAD, Z], 0, Some(SurveyFault::TooManyFrames(417)))
};

/// Files with several faults.
static ORDERS: [Case; 10] = table! {
    Case { name, file, allowed, answer }
    ("Truncated before Mixed", &[Z, OTHER_CLASS, Fill(0, 379)], MANY,
        Some(SurveyFault::Truncated(417)))
    ("Mixed before CheckWord", &[Z, WRONG_AND_BACK], MANY, Some(SurveyFault::Mixed(417)))
    ("the check word of a lost frame", &[WRONG_AND_BACK], MANY,
        Some(SurveyFault::CheckWord(0, 0xe952, 0x6f31)))
    ("BackPointer before Overlap", &[Stretch::Frame(0, 8), Stretch::Frame(382, 8)], MANY,
        Some(SurveyFault::BackPointer(417, 382, 381)))
    ("BackPointer before Overrun", &[SHORT_LOUD, SHORT_TOO_LONG], MANY,
        Some(SurveyFault::BackPointer(24, 12, 11)))
    ("Overlap before Overrun", &[Stretch::Frame(0, 3048), Stretch::Frame(1, 4000)], MANY,
        Some(SurveyFault::Overlap(417)))
    ("Overrun before TooManyFrames", &[Z, Stretch::Frame(0, 3049)], 1,
        Some(SurveyFault::Overrun(417, 3049, 3048)))
    ("a frame before what stops the walk", &[Z, Stretch::Frame(0, 3049), Bytes(b"\0A")], MANY,
        Some(SurveyFault::Overrun(417, 3049, 3048)))
    ("a later frame that is worse", &[Z, Stretch::Frame(0, 3049), OTHER_CLASS, Fill(0, 380)], MANY,
        Some(SurveyFault::Overrun(417, 3049, 3048)))
    ("too many frames before a later fault", &[Z, Z, OTHER_CLASS, Fill(0, 380)], 1,
        Some(SurveyFault::TooManyFrames(417)))
};

/// Whether both the plain reading and the survey find this first fault, or none.
pub fn both_find(
    alloc: Global,
    file: &[u8],
    allowed: u32,
    answer: Option<SurveyFault>,
) -> Result<bool, AllocError> {
    let plain = first_fault(alloc, file, allowed)?;
    let found = survey_fault(alloc, file, allowed)?;
    Ok(plain == answer && found == answer)
}

/// The name of the first case with another first fault.
fn first_wrong(alloc: Global, cases: &[Case]) -> Result<Option<&'static str>, AllocError> {
    for case in cases {
        let file = bytes_of(alloc, case.file)?;
        if !both_find(alloc, &file, case.allowed, case.answer)? {
            return Ok(Some(case.name));
        }
    }
    Ok(None)
}

/// The same for the cases of walks.
fn first_wrong_walk(alloc: Global) -> Result<Option<&'static str>, AllocError> {
    for case in &walks::CASES {
        let file = bytes_of(alloc, case.file)?;
        let answer = match &case.answer {
            Ok(_) => None,
            Err(fault) => Some(*fault),
        };
        if !both_find(alloc, &file, MANY, answer)? {
            return Ok(Some(case.name));
        }
    }
    Ok(None)
}

fn expect_all<R: Abort + AllocGlobal>(rt: &R, cases: &[Case]) -> Result<(), Fail> {
    let wrong = first_wrong(rt.alloc(), cases)?.unwrap_or("");
    assert!(rt; wrong.is_empty(), "{wrong}");
    Ok(())
}

#[test]
fn faults_of_files(rt: HostRuntime) -> Result<(), Fail> {
    for cases in [
        BEGINS.as_slice(),
        ENDS.as_slice(),
        FRAMES.as_slice(),
        ORDERS.as_slice(),
    ] {
        expect_all(&rt, cases)?;
    }
    Ok(())
}

#[test]
fn faults_of_walks(rt: HostRuntime) -> Result<(), Fail> {
    let wrong = first_wrong_walk(rt.alloc())?.unwrap_or("");
    assert!(rt; wrong.is_empty(), "{wrong}");
    Ok(())
}
