//! Fades of four frames whose gains are all 100, and what is refused.

use commands::{EditFault, Refusal};
use fade_plan::EnvelopeFault;
use gain_edits::fade;
use outside::MemFolder;
use std::alloc::{AllocError, Global};
use std::process::Abort;
use std::test::Fail;
use sync_survey::SurveyFault;
use test_files::files::Stretch::Repeated;
use test_files::files::bytes_of;
use test_files::frames::{Frame, G, file_of};
use test_files::{frame, table};

// G with other gains, given by the bytes of the side information that hold them: two for each channel of the first granule, one and
// two for the channels of the second.
macro_rules! at {
    ($a:literal, $b:literal, $c:literal, $d:literal, $e:literal, $f:literal, $g:literal) => {
        frame! {
            side: &[
                0, 0, 0, 8, 0, $a, $b, 0, 0, 0, 1, 0, $c, $d, 0, 0, 0, 0, 0x20, 0, $e, 0, 0, 0, 0, 4, 0, $f, $g,
            ],
            ..G
        }
    };
}

/// All four gains are 100.
const AT_100: Frame = at!(0x32, 0x00, 0x06, 0x40, 0xc8, 0x19, 0x00);

/// All four are 99.
const AT_99: Frame = at!(0x31, 0x80, 0x06, 0x30, 0xc6, 0x18, 0xc0);

/// All four are 98.
const AT_98: Frame = at!(0x31, 0x00, 0x06, 0x20, 0xc4, 0x18, 0x80);

/// All four are 97.
const AT_97: Frame = at!(0x30, 0x80, 0x06, 0x10, 0xc2, 0x18, 0x40);

/// All four are 94.
const AT_94: Frame = at!(0x2f, 0x00, 0x05, 0xe0, 0xbc, 0x17, 0x80);

/// All four are 90.
const AT_90: Frame = at!(0x2d, 0x00, 0x05, 0xa0, 0xb4, 0x16, 0x80);

static FLAT: [Frame; 4] = [AT_100, AT_100, AT_100, AT_100];

/// The input, the output and the sheet of a fade, the sheet's text, and the frames of the faded file or why the fade is refused. `in`
/// holds four frames, `s` the text, `long` 65,537 bytes, and there is no other file.
struct Fade {
    input: &'static str,
    output: &'static str,
    sheet: &'static str,
    text: &'static [u8],
    answer: Result<&'static [Frame], EditFault>,
}

static FADES: [Fade; 13] = table! {
    Fade { input, output, sheet, text, answer }
    ("in", "out", "s", b"0 0\n3 -10\n", Ok(&[AT_100, AT_97, AT_94, AT_90]))
    ("in", "out", "s", b"0 0\nEOF -4", Ok(&[AT_100, AT_99, AT_98, AT_97]))
    ("in", "out", "s", b"\xef\xbb\xbf# two points\r\n\r\n1 -1\r\n2 -2\r\n", Ok(&[AT_99, AT_99, AT_98, AT_98]))
    ("in", "in", "s", b"", Err(EditFault::EqualNames(0)))
    ("in", "s", "s", b"", Err(EditFault::EqualNames(1)))
    ("none", "out", "none", b"", Err(EditFault::Input(0, SurveyFault::Absent)))
    ("in", "out", "none", b"", Err(EditFault::Input(1, SurveyFault::Absent)))
    ("in", "out", "long", b"", Err(EditFault::Refused(Refusal::SheetTooLarge(65_537))))
    ("in", "out", "s", b"", Err(EditFault::Refused(Refusal::Curve(EnvelopeFault::NoPoints))))
    ("in", "out", "s", b"1 5\n1 6\n3\n", Err(EditFault::Refused(Refusal::Curve(EnvelopeFault::Line(3)))))
    ("in", "out", "s", b"1 -101\n1 6\n", Err(EditFault::Refused(Refusal::CurveNotRising(2))))
    ("in", "out", "s", b"0 -101\n", Err(EditFault::Refused(Refusal::GainRange(0, 0, 0, 100))))
    ("in", "out", "s", b"1 155\n2 156\n", Err(EditFault::Refused(Refusal::GainRange(834, 0, 0, 100))))
};

fn put_long(alloc: Global, folder: &mut MemFolder) -> Result<(), AllocError> {
    let long = vec![in alloc; b'\n'; 65_537]?;
    folder.put("long", &long)
}

fn put_files(
    alloc: Global,
    folder: &mut MemFolder,
    file: &[u8],
    text: &[u8],
) -> Result<(), AllocError> {
    folder.put("in", file)?;
    folder.put("s", text)?;
    put_long(alloc, folder)?;
    folder.reserve("out", 2000)?;
    folder.reserve("back", 2000)
}

fn has(folder: &MemFolder, name: &str, wanted: &[u8]) -> bool {
    folder.get(name) == Some(wanted)
}

/// Whether the file comes back from `out` as `back`.
fn comes_back(alloc: Global, folder: &mut MemFolder, sheet: &str, file: &[u8]) -> bool {
    fade(alloc, folder, "out", "back", sheet, true) == Ok(()) && has(folder, "back", file)
}

/// Whether the fade is done and can be undone, or it is refused and its output isn't there.
fn is_answered(
    alloc: Global,
    folder: &mut MemFolder,
    row: &Fade,
    file: &[u8],
) -> Result<bool, AllocError> {
    match (
        fade(alloc, folder, row.input, row.output, row.sheet, false),
        row.answer,
    ) {
        (Ok(()), Ok(frames)) => {
            let faded = file_of(alloc, frames)?;
            Ok(has(folder, "out", &faded) && comes_back(alloc, folder, row.sheet, file))
        }
        (Err(found), Err(fault)) => Ok(found == fault && folder.get("out").is_none()),
        _ => Ok(false),
    }
}

fn fades_in(alloc: Global, folder: &mut MemFolder, row: &Fade) -> Result<bool, AllocError> {
    let file = file_of(alloc, &FLAT)?;
    put_files(alloc, folder, &file, row.text)?;
    is_answered(alloc, folder, row, &file)
}

fn fades(alloc: Global, row: &Fade) -> Result<bool, AllocError> {
    let mut folder = MemFolder::new(alloc);
    fades_in(alloc, &mut folder, row)
}

/// Each frame moves by its own steps and back, and nothing is created where the fade is refused.
#[test]
fn fades_and_refusals(rt: HostRuntime) -> Result<(), Fail> {
    for (number, row) in FADES.iter().enumerate() {
        assert!(rt; fades(rt.alloc(), row)?, "row {number}");
    }
    Ok(())
}

/// The last digit of a number.
fn digit_of(number: u16) -> u8 {
    b'0' + (number % 10) as u8
}

/// A sheet of as many points as there may be, one for each of a thousand frames: no step, and one step down, in turn.
fn thousand_points(alloc: Global) -> Result<Vec<u8>, AllocError> {
    let mut sheet = Vec::new(alloc);
    for frame in 0..1000 {
        sheet.extend_from_slice(&[digit_of(frame / 100), digit_of(frame / 10), digit_of(frame)])?;
        sheet.extend_from_slice(if frame % 2 == 0 { b" +0\n" } else { b" -1\n" })?;
    }
    Ok(sheet)
}

static BY_TURNS: [Frame; 2] = [AT_100, AT_99];

fn put_thousand(alloc: Global, folder: &mut MemFolder, file: &[u8]) -> Result<(), AllocError> {
    folder.put("in", file)?;
    folder.put("s", &thousand_points(alloc)?)?;
    folder.reserve("out", 417_000)?;
    folder.reserve("back", 417_000)
}

/// Whether a thousand frames fade by a thousand points, and come back.
fn fades_by_thousand(alloc: Global, folder: &mut MemFolder) -> Result<bool, AllocError> {
    let file = bytes_of(alloc, &[Repeated(&FLAT, 250)])?;
    let faded = bytes_of(alloc, &[Repeated(&BY_TURNS, 500)])?;
    put_thousand(alloc, folder, &file)?;
    let is_faded = fade(alloc, folder, "in", "out", "s", false) == Ok(());
    Ok(is_faded && has(folder, "out", &faded) && comes_back(alloc, folder, "s", &file))
}

#[test]
fn as_many_points_as_there_may_be(rt: HostRuntime) -> Result<(), Fail> {
    let mut folder = MemFolder::new(rt.alloc());
    assert!(rt; fades_by_thousand(rt.alloc(), &mut folder)?);
    Ok(())
}
