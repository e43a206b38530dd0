//! Sheets and their starts, worked out by hand: `(60 * mm + ss) * 75 + ff`.

use cue_sheet::{Cue, CueFault, Place};
use std::alloc::{AllocError, AllocGlobal, Global};
use std::process::Abort;
use std::test::Fail;
use test_files::table;

/// A sheet, and where its tracks begin, or its first fault.
struct Sheet {
    what: &'static str,
    text: &'static [u8],
    answer: Result<&'static [Place], CueFault>,
}

static SHEETS: [Sheet; 8] = table! {
    Sheet { what, text, answer }
    ("two tracks",
        b"FILE \"a.mp3\" MP3\nTRACK 01 AUDIO\nINDEX 01 00:00:00\nTRACK 02 AUDIO\nINDEX 01 00:02:00\n",
        Ok(&[Place::Time(0, 75), Place::Time(150, 75)]))
    ("INDEX 00 is no start, nor is INDEX 02",
        b"TRACK 01 AUDIO\nINDEX 00 00:00:00\nINDEX 01 00:00:33\nINDEX 02 00:01:00\nTRACK 02 AUDIO\nINDEX 00 09:59:74\nINDEX 1 10:00:00",
        Ok(&[Place::Time(33, 75), Place::Time(45_000, 75)]))
    ("carriage returns, tabs and blanks at both ends", b"TRACK\t01 \tAUDIO\r\n  INDEX 01\t00:00:01 \r\n\r\n",
        Ok(&[Place::Time(1, 75)]))
    ("a byte order mark, and a carriage return at the end",
        b"\xef\xbb\xbfFILE a MP3\nTRACK 1 AUDIO\nINDEX 01 9999:59:74\r", Ok(&[Place::Time(44_999_999, 75)]))
    ("lower-case keywords", b"file a\ntrack 01 audio\nIndex 01 00:00:02", Ok(&[Place::Time(2, 75)]))
    ("numbers of tracks that fall and repeat",
        b"TRACK 09 AUDIO\nINDEX 01 00:00:00\nTRACK 02 AUDIO\nINDEX 01 00:00:01\nTRACK 02 AUDIO\nINDEX 01 00:00:02",
        Ok(&[Place::Time(0, 75), Place::Time(1, 75), Place::Time(2, 75)]))
    ("a track without a start",
        b"TRACK 01 AUDIO\nTRACK 02 AUDIO\nINDEX 00 00:00:07\nTRACK 03 AUDIO\nINDEX 01 00:00:05",
        Ok(&[Place::Time(5, 75)]))
    ("other lines aren't read",
        b"REM INDEX 01 x\nTITLE \"TRACK\"\n\xff\x00\nTRACK 01 AUDIO\nFLAGS DCP\nTRACKS\nINDEX 01 00:00:00",
        Ok(&[Place::Time(0, 75)]))
};

// Sheets with a fault.
static REFUSED: [Sheet; 18] = table! {
    Sheet { what, text, answer }
    ("60 seconds", b"TRACK 01 AUDIO\nREM\nINDEX 01 00:60:00", Err(CueFault::Line(3)))
    ("75 frames", b"TRACK 01 AUDIO\nINDEX 01 00:00:75", Err(CueFault::Line(2)))
    ("minutes of one digit", b"TRACK 01 AUDIO\nINDEX 01 0:00:00", Err(CueFault::Line(2)))
    ("two numbers", b"TRACK 01 AUDIO\nINDEX 01 00:00", Err(CueFault::Line(2)))
    ("four numbers", b"TRACK 01 AUDIO\nINDEX 01 00:00:00:00", Err(CueFault::Line(2)))
    ("a word behind a time", b"TRACK 01 AUDIO\nINDEX 01 00:00:00 x", Err(CueFault::Line(2)))
    ("an index of three digits", b"TRACK 01 AUDIO\nINDEX 001 00:00:00", Err(CueFault::Line(2)))
    ("two starts of a track", b"TRACK 01 AUDIO\nINDEX 01 00:00:00\nINDEX 01 00:00:01", Err(CueFault::Line(3)))
    ("a start without a track", b"INDEX 01 00:00:00", Err(CueFault::Line(1)))
    ("INDEX 00 without a track", b"INDEX 00 00:00:00", Err(CueFault::Line(1)))
    ("track 0", b"\nTRACK 00 AUDIO", Err(CueFault::Line(2)))
    ("a track without a kind", b"TRACK 01", Err(CueFault::Line(1)))
    ("a track of data", b"TRACK 01 MODE1/2352", Err(CueFault::Line(1)))
    ("two carriage returns", b"TRACK 01 AUDIO\r\r", Err(CueFault::Line(1)))
    ("two files", b"FILE a\nFILE b", Err(CueFault::Line(2)))
    ("two tracks of one start", b"FILE a\nTRACK 01 AUDIO\nINDEX 01 00:00:00\nTRACK 02 AUDIO\nINDEX 01 00:00:00",
        Err(CueFault::NotRising(5)))
    ("a file alone", b"FILE \"a.mp3\" MP3\n", Err(CueFault::NoTracks))
    ("nothing", b"", Err(CueFault::NoTracks))
};

/// Whether the sheet is read as wanted: its tracks begin there, or this is its first fault.
fn is_read(alloc: Global, text: &[u8], answer: Result<&[Place], CueFault>) -> bool {
    if text.len() > 65_536 {
        return false;
    }
    match (Cue::read(alloc, text), answer) {
        (Ok(cue), Ok(starts)) => cue.starts() == starts,
        (Err(found), Err(fault)) => found == fault,
        _ => false,
    }
}

fn expect_all<R: Abort + AllocGlobal>(rt: &R, sheets: &[Sheet]) {
    for sheet in sheets {
        assert!(rt;
            is_read(rt.alloc(), sheet.text, sheet.answer),
            "{}",
            sheet.what
        );
    }
}

#[test]
fn sheets(rt: HostRuntime) {
    expect_all(&rt, &SHEETS);
}

#[test]
fn first_faults(rt: HostRuntime) {
    expect_all(&rt, &REFUSED);
}

#[test]
fn a_hundredth_track(rt: HostRuntime) -> Result<(), Fail> {
    let mut sheet: Vec<u8> = Vec::new(rt.alloc());
    for _ in 0..100 {
        sheet.extend_from_slice(b"TRACK 99 AUDIO\n")?;
    }
    assert!(rt; is_read(rt.alloc(), &sheet, Err(CueFault::Line(100))));
    Ok(())
}

/// A sheet of 99 tracks, each of which starts a minute after the one before it.
fn sheet_of_99(alloc: Global) -> Result<Vec<u8>, AllocError> {
    let mut sheet: Vec<u8> = Vec::new(alloc);
    for minute in 0..99u8 {
        sheet.extend_from_slice(b"TRACK 01 AUDIO\nINDEX 01 ")?;
        sheet.extend_from_slice(&[b'0' + minute / 10, b'0' + minute % 10])?;
        sheet.extend_from_slice(b":00:00\n")?;
    }
    Ok(sheet)
}

fn has_99(alloc: Global, text: &[u8]) -> bool {
    if text.len() > 65_536 {
        return false;
    }
    match Cue::read(alloc, text) {
        Ok(cue) => {
            cue.starts().len() == 99 && cue.starts().last() == Some(&Place::Time(98 * 60 * 75, 75))
        }
        Err(_) => false,
    }
}

/// As many tracks as a sheet may have.
#[test]
fn ninety_nine_tracks(rt: HostRuntime) -> Result<(), Fail> {
    let sheet = sheet_of_99(rt.alloc())?;
    assert!(rt; has_99(rt.alloc(), &sheet));
    Ok(())
}
