//! Positions worked out by hand from their forms, and their frames by division.

use cue_sheet::Place;
use frame_header::{Class, Version};
use std::process::Abort;
use std::test::Fail;
use test_files::table;

struct Word {
    text: &'static str,
    says: Option<Place>,
}

static WORDS: [Word; 12] = table! {
    Word { text, says }
    ("EOF", Some(Place::End))
    ("0", Some(Place::Frame(0)))
    ("0000076", Some(Place::Frame(76)))
    ("9999999", Some(Place::Frame(9_999_999)))
    ("1.00.00", Some(Place::Time(6_000, 100)))
    ("1.5", Some(Place::Time(6_500, 100)))
    ("0.0.5", Some(Place::Time(5, 100)))
    ("0.0.50", Some(Place::Time(50, 100)))
    ("9999.59.99", Some(Place::Time(59_999_999, 100)))
    ("0071.07", Some(Place::Time(426_700, 100)))
    ("00.59", Some(Place::Time(5_900, 100)))
    ("10.09.08", Some(Place::Time(60_908, 100)))
};

static OTHERS: [&'static str; 20] = [
    "", "eof", "EO", "EOF ", "00000000", "-1", "+1", "1a", ".", "1.", ".30", "1.60", "1.000",
    "00001.00", "1.30.", "1.30.000", "1.30.1.1", "1..1", "1.30,5", "1.3٣",
];

#[test]
fn words(rt: HostRuntime) -> Result<(), Fail> {
    for word in &WORDS {
        assert!(rt; Place::read(word.text) == word.says, "{}", word.text);
    }
    Ok(())
}

#[test]
fn words_that_say_no_place(rt: HostRuntime) -> Result<(), Fail> {
    for word in &OTHERS {
        assert!(rt; Place::read(word).is_none(), "{word}");
    }
    Ok(())
}

struct At {
    version: Version,
    frequency_index: u8,
    place: Place,
    frame: u64,
}

static FRAMES: [At; 7] = table! {
    At { version, frequency_index, place, frame }
    // 60 * 44100 / 1152 is 2296.875.
    (Version::One, 0, Place::Time(6_000, 100), 2_296)
    // 2 * 44100 / 1152 is 76.56.
    (Version::One, 0, Place::Time(150, 75), 76)
    // 60 * 22050 / 576 and 60 * 11025 / 576
    (Version::Two, 0, Place::Time(6_000, 100), 2_296)
    (Version::TwoFive, 0, Place::Time(6_000, 100), 1_148)
    // A frame takes 24 ms: 2.4 s are 100 frames.
    (Version::One, 1, Place::Time(240, 100), 100)
    (Version::One, 0, Place::Frame(200), 200)
    (Version::One, 0, Place::End, 100)
};

#[test]
fn frames_of_places(rt: HostRuntime) -> Result<(), Fail> {
    for at in &FRAMES {
        let class = Class {
            version: at.version,
            frequency_index: at.frequency_index,
            channels: 2,
        };
        assert!(rt;
            at.place.frame_of(class, 100) == at.frame,
            "frame {}",
            at.frame
        );
    }
    Ok(())
}

#[test]
fn without_more_the_end(rt: HostRuntime) -> Result<(), Fail> {
    assert!(rt; Place::default() == Place::End);
    Ok(())
}
