//! Places of samples, by the forms of their words, and the samples and frames that they name, by division.

use cue_sheet::Place;
use exact_span::ExactPlace;
use exact_span::ExactPlace::{Back, Millis, Sample};
use frame_header::{Class, Version};
use std::process::Abort;
use std::test::Fail;
use test_files::table;

struct Word {
    text: &'static str,
    says: ExactPlace,
}

static WORDS: [Word; 10] = table! {
    Word { text, says }
    ("EOF", ExactPlace::Place(Place::End))
    ("9999999", ExactPlace::Place(Place::Frame(9_999_999)))
    ("0.00.5", ExactPlace::Place(Place::Time(5, 100)))
    ("0samples", Sample(0))
    ("1152samples", Sample(1_152))
    ("4294967295samples", Sample(4_294_967_295))
    ("0000000001samples", Sample(1))
    ("0.0.005", Millis(5))
    ("9999.59.999", Millis(599_999_999))
    ("0001.1.010", Millis(61_010))
};

static SECONDS: [Word; 9] = table! {
    Word { text, says }
    ("0s", Millis(0))
    ("30s", Millis(30_000))
    ("90.5s", Millis(90_500))
    ("1.30s", Millis(1_300))
    ("0.005s", Millis(5))
    ("000000.03s", Millis(30))
    ("000000.020s", Millis(20))
    ("999999.999s", Millis(999_999_999))
    ("44100s", Millis(44_100_000))
};

static BEFORE_THE_END: [Word; 10] = table! {
    Word { text, says }
    ("EOF-0.10", Back(10_000))
    ("EOF-1.0", Back(60_000))
    ("EOF-0.0", Back(0))
    ("EOF-0.00.02", Back(20))
    ("EOF-0.0.020", Back(20))
    ("EOF-0.0.005", Back(5))
    ("EOF-9999.59.99", Back(599_999_990))
    ("EOF-90s", Back(90_000))
    ("EOF-0.02s", Back(20))
    ("EOF-999999.9s", Back(999_999_900))
};

static OTHERS: [&'static str; 45] = [
    "",
    "4294967296samples",
    "00000000001samples",
    "samples",
    "1sample",
    "1Samples",
    "+1samples",
    "1.0samples",
    "30samples ",
    "s",
    "1S",
    "30S",
    "+1s",
    ".5s",
    "1.s",
    "1.5000s",
    "1234567s",
    "0.0.5s",
    "1ms",
    "0.0.0005",
    "0.60.000",
    "10000.0.000",
    "0..000",
    "EOF-",
    "EOF-3",
    "EOF-s",
    "EOF-.5s",
    "EOF-1.s",
    "EOF-1.5000s",
    "EOF-1234567s",
    "EOF-1samples",
    "EOF-0.0.5",
    "EOF-0.0.0005",
    "EOF-0.60",
    "eof-0.1",
    "eof-1s",
    "1 s",
    "0.0.00a",
    "1.2.3.004",
    "EOF-0.10.",
    "EOF-EOF",
    "0.5.s",
    "s30",
    "1,5s",
    "30 seconds",
];

fn are_read(words: &[Word]) -> bool {
    words
        .iter()
        .all(|word| ExactPlace::read(word.text) == Some(word.says))
}

#[test]
fn words(rt: HostRuntime) {
    assert!(rt; are_read(&WORDS));
    assert!(rt; are_read(&SECONDS));
    assert!(rt; are_read(&BEFORE_THE_END));
}

#[test]
fn words_that_say_no_place(rt: HostRuntime) {
    for word in &OTHERS {
        assert!(rt; ExactPlace::read(word).is_none(), "{word}");
    }
}

/// A word, and the sample that it names in a file with 2,304 played samples.
struct At {
    version: Version,
    frequency_index: u8,
    word: &'static str,
    sample: u64,
}

static SAMPLES: [At; 12] = table! {
    At { version, frequency_index, word, sample }
    (Version::One, 0, "3", 3_456)
    (Version::TwoFive, 2, "3", 1_728)
    (Version::One, 0, "EOF", 2_304)
    (Version::One, 0, "4294967295samples", 4_294_967_295)
    // 220.5 samples, and twice as many.
    (Version::One, 0, "0.0.005", 220)
    (Version::Two, 0, "0.00.020", 441)
    (Version::One, 0, "EOF-0.0.005", 2_084)
    (Version::One, 0, "EOF-0.0", 2_304)
    // 30 s and 999,999.999 s, in 64 bits.
    (Version::One, 0, "30s", 1_323_000)
    (Version::One, 0, "999999.999s", 44_099_999_955)
    (Version::One, 0, "EOF-0.02s", 1_422)
    // More than the file has.
    (Version::One, 0, "EOF-1.0", 0)
};

fn is_named(at: &At) -> bool {
    if at.frequency_index > 2 {
        return false;
    }
    let class = Class {
        version: at.version,
        frequency_index: at.frequency_index,
        channels: 2,
    };
    match ExactPlace::read(at.word) {
        Some(place) => place.sample(class, 2_304) == at.sample,
        None => false,
    }
}

#[test]
fn samples_of_places(rt: HostRuntime) -> Result<(), Fail> {
    for at in &SAMPLES {
        assert!(rt; is_named(at), "sample {}", at.sample);
    }
    Ok(())
}

/// A word, and the frame that it names in a file with six frames.
struct Named {
    version: Version,
    frequency_index: u8,
    word: &'static str,
    frame: u64,
}

/// A frame of 1,152 samples at 44,100 Hz takes 26.12 ms.
static FRAMES: [Named; 10] = table! {
    Named { version, frequency_index, word, frame }
    (Version::One, 0, "3", 3)
    (Version::One, 0, "0.00.03", 1)
    (Version::One, 0, "EOF", 6)
    (Version::One, 0, "1151samples", 0)
    (Version::One, 0, "1152samples", 1)
    (Version::One, 0, "4294967295samples", 3_728_270)
    (Version::One, 0, "0.0.026", 0)
    (Version::One, 0, "0.0.027", 1)
    (Version::One, 0, "0.0.030", 1)
    (Version::One, 0, "30s", 1_148)
};

/// Before the end of these, and in MPEG-2.5 at 8,000 Hz, where a frame of 576 samples takes 72 ms.
static OTHER_FRAMES: [Named; 10] = table! {
    Named { version, frequency_index, word, frame }
    (Version::One, 0, "EOF-0.0.026", 6)
    (Version::One, 0, "EOF-0.0.060", 4)
    (Version::One, 0, "EOF-0.0", 6)
    (Version::One, 0, "EOF-10s", 0)
    (Version::TwoFive, 2, "7", 7)
    (Version::TwoFive, 2, "0.144s", 2)
    (Version::TwoFive, 2, "0.359s", 4)
    (Version::TwoFive, 2, "575samples", 0)
    (Version::TwoFive, 2, "2880samples", 5)
    (Version::TwoFive, 2, "EOF-0.144s", 4)
};

fn names_frame(named: &Named) -> bool {
    if named.frequency_index > 2 {
        return false;
    }
    let class = Class {
        version: named.version,
        frequency_index: named.frequency_index,
        channels: 1,
    };
    match ExactPlace::read(named.word) {
        Some(place) => place.frame_of(class, 6) == named.frame,
        None => false,
    }
}

#[test]
fn frames_of_places(rt: HostRuntime) -> Result<(), Fail> {
    assert!(rt; FRAMES.iter().all(names_frame));
    assert!(rt; OTHER_FRAMES.iter().all(names_frame));
    Ok(())
}

/// A start of a cue sheet: 150 parts of 1/75 second are 88,200 samples.
#[test]
fn the_sample_of_a_start(rt: HostRuntime) -> Result<(), Fail> {
    let class = Class {
        version: Version::One,
        frequency_index: 0,
        channels: 1,
    };
    let start = ExactPlace::Place(Place::Time(150, 75));
    assert!(rt; start.sample(class, 2_304) == 88_200);
    Ok(())
}

#[test]
fn without_more_the_end(rt: HostRuntime) {
    assert!(rt; ExactPlace::default() == ExactPlace::Place(Place::End));
}
