//! The gains that move, of small files: their side information was worked out bit by bit from the standard's tables.
ghost use Rattle.sync_survey.specs.Faults.{survey_view};
ghost use Rattle.sync_survey.specs.Survey.{IsSurveyLaidOut};

use moved_gains::{Gains, gains_of, joined};
use outside::{Folder, MemFolder};
use std::alloc::{AllocError, Global};
use std::process::Abort;
use std::test::Fail;
use sync_survey::{Survey, survey};
use test_files::frames::{Frame, G, Z, file_of};
use test_files::{frame, table};

/// Each channel of each granule has 8 bits; the gains are 100, 120, 110, 130.
const SOUND: Frame = frame! {
    side: b"\0\0\0\x08\0\x32\0\0\0\0\x01\0\x07\x80\0\0\0\0\x20\0\xdc\0\0\0\0\x04\0\x20\x80", ..G
};

/// The same frame with the gains 0, 255, 0, 255, and
/// with main data that begin 81 bytes before its area.
const LOST: Frame = frame! {
    side: b"\x28\x80\0\x08\0\0\0\0\0\0\x01\0\x0f\xf0\0\0\0\0\x20\0\0\0\0\0\0\x04\0\x3f\xc0", ..G
};

/// The lengths are 8, 8, 8, 0 bits and the gains 100, 101, 50, 255.
const LAST_SILENT: Frame = frame! {
    side: b"\0\0\0\x08\0\x32\0\0\0\0\x01\0\x06\x50\0\0\0\0\x20\0\x64\0\0\0\0\0\0\x3f\xc0", ..G
};

/// The lengths are 0, 0, 0, 8 bits and the gains 0, 7, 255, 9.
const RIGHT_ALONE: Frame = frame! {
    side: b"\0\0\0\0\0\0\0\0\0\0\0\0\0\x70\0\0\0\0\0\x01\xfe\0\0\0\0\x04\0\x02\x40", ..G
};

/// One channel; the lengths are 8 bits and the gains 30 and 40.
const MONO: Frame = frame! {
    header: [0xff, 0xfb, 0x90, 0xc0], side: b"\0\0\0\x20\0\x3c\0\0\0\0\x04\0\x0a", ..G
};

/// MPEG-2, 22,050 Hz, 64 kbit/s, two channels; the lengths are 8 bits and the gains 30 and 40.
const LOWER: Frame = frame! {
    header: [0xff, 0xf3, 0x80, 0x40], side: b"\0\0\x20\0\x3c\0\0\0\0\0\x40\0\xa0", length: 208, ..G
};

/// A file, a channel, and the least and the greatest of its gains that move.
struct Case {
    name: &'static str,
    file: &'static [Frame],
    channel: u8,
    gains: Option<(u8, u8)>,
}

static CASES: [Case; 9] = table! {
    Case { name, file, channel, gains }
    ("a lost frame before, left", &[LOST, SOUND], 0, Some((100, 110)))
    ("a lost frame before, right", &[LOST, SOUND], 1, Some((120, 130)))
    ("a silent granule", &[LAST_SILENT], 1, Some((101, 101)))
    ("both granules silent", &[RIGHT_ALONE], 0, None)
    ("the other channel of these", &[RIGHT_ALONE], 1, Some((9, 9)))
    ("a silent frame among others", &[SOUND, Z, LAST_SILENT], 0, Some((50, 110)))
    ("one channel", &[MONO], 0, Some((30, 40)))
    ("one granule, left", &[LOWER], 0, Some((30, 30)))
    ("one granule, right", &[LOWER], 1, Some((40, 40)))
};

/// The least and the greatest gain of a channel that move, where any does.
fn moving(survey: &Survey, channel: u8) -> Option<(u8, u8)>
    requires { IsSurveyLaidOut (survey_view survey.now) }
{
    if channel >= survey.class().channels {
        return None;
    }
    let gains = gains_of(survey.frames(), channel)?;
    Some((gains.least, gains.greatest))
}

/// The same for the file `a`; `None` also where it has no survey.
fn gains_in<D: Folder>(alloc: Global, folder: &mut D, channel: u8) -> Option<(u8, u8)> {
    match survey(alloc, folder, "a", 10) {
        Ok(survey) => moving(&survey, channel),
        Err(_) => None,
    }
}

fn has_gains(alloc: Global, case: &Case) -> Result<bool, AllocError> {
    let file = file_of(alloc, case.file)?;
    let mut folder = MemFolder::new(alloc);
    folder.put("a", &file)?;
    Ok(gains_in(alloc, &mut folder, case.channel) == case.gains)
}

#[test]
fn gains_that_move(rt: HostRuntime) -> Result<(), Fail> {
    for case in &CASES {
        let is = has_gains(rt.alloc(), case)?;
        assert!(rt; is, "{}", case.name);
    }
    Ok(())
}

#[test]
fn gains_of_both(rt: HostRuntime) -> Result<(), Fail> {
    let left = Gains {
        least: 50,
        greatest: 100,
    };
    let right = Gains {
        least: 101,
        greatest: 101,
    };
    let both = Gains {
        least: 50,
        greatest: 101,
    };
    assert!(rt; joined(Some(left), Some(right)) == Some(both));
    assert!(rt; joined(None, Some(right)) == Some(right));
    Ok(())
}
