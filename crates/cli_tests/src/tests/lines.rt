//! Lines of faults as they are sent.
use cue_sheet::CueFault;
use edits::{EditFault, Refusal};
use mp3_cli::{Outputs, send_bad_word, send_fault, status};
use outside::MemSink;
use std::alloc::{AllocError, AllocGlobal, Global};
use std::process::Abort;
use std::test::Fail;
use sync_survey::SurveyFault;
use test_files::table;

/// A fault, with its status and its line.
struct Line {
    fault: EditFault,
    status: u8,
    line: &'static [u8],
}

/// Faults of an input.
static INPUT_LINES: [Line; 14] = table! {
    Line { fault, status, line }
    (EditFault::Input(0, SurveyFault::Absent), 3, b"a.mp3: absent\n")
    (EditFault::Input(0, SurveyFault::TooLong(1_073_741_825)), 1, b"a.mp3: too long, 1073741825 bytes\n")
    (EditFault::Input(0, SurveyFault::NoFrame(0)), 1, b"a.mp3: no frame at 0\n")
    (EditFault::Input(0, SurveyFault::LostSync(30417)), 1, b"a.mp3: lost synchronisation at 30417\n")
    (EditFault::Input(0, SurveyFault::Truncated(417)), 1, b"a.mp3: truncated at 417\n")
    (EditFault::Input(0, SurveyFault::FreeFormat(9)), 1, b"a.mp3: free format at 9\n")
    (EditFault::Input(0, SurveyFault::Mixed(834)), 1, b"a.mp3: mixed class at 834\n")
    (EditFault::Input(0, SurveyFault::CheckWord(417, 0x0a0f, 0xe952)), 1,
        b"a.mp3: check word at 417 is 0a0f, right is e952\n")
    (EditFault::Input(0, SurveyFault::BackPointer(0, 10, 0)), 1,
        b"a.mp3: back pointer at 0 is 10, present 0\n")
    (EditFault::Input(0, SurveyFault::Overlap(417)), 1, b"a.mp3: overlap at 417\n")
    (EditFault::Input(0, SurveyFault::Overrun(0, 3049, 3048)), 1,
        b"a.mp3: overrun at 0, bits 3049, room 3048\n")
    (EditFault::Input(0, SurveyFault::TooManyFrames(7)), 1, b"a.mp3: too many frames at 7\n")
    (EditFault::Input(0, SurveyFault::Shrunk(834, 417)), 3, b"a.mp3: shrunk from 834 to 417\n")
    (EditFault::Input(0, SurveyFault::Read), 3, b"a.mp3: read fault\n")
};

/// All other faults.
static LINES: [Line; 16] = table! {
    Line { fault, status, line }
    (EditFault::EqualNames(0), 1, b"a.mp3: input is an output\n")
    (EditFault::Refused(Refusal::Mono), 1, b"one channel only\n")
    (EditFault::Refused(Refusal::Joint(30417)), 1, b"joint stereo at 30417\n")
    (EditFault::Refused(Refusal::TagTooLarge(1_048_577)), 1, b"tag too large, 1048577\n")
    (EditFault::Refused(Refusal::BadTag(441)), 1, b"bad tag at 441\n")
    (EditFault::Refused(Refusal::NoUndo), 1, b"no undo item\n")
    (EditFault::Refused(Refusal::BadUndo(449)), 1, b"bad undo item at 449\n")
    (EditFault::Refused(Refusal::UndoRange(-1020)), 1, b"undo sum -1020 is out of range\n")
    (EditFault::Refused(Refusal::UndoRange(1254)), 1, b"undo sum 1254 is out of range\n")
    (EditFault::Refused(Refusal::OutputTooLong(1_073_741_920)), 1, b"output too long, 1073741920 bytes\n")
    (EditFault::Sent, 3, b"standard output: write fault\n")
    (EditFault::Refused(Refusal::GainRange(417, 1, 0, 255)), 1,
        b"gain 255 out of range at 417, granule 1, channel 0\n")
    (EditFault::Refused(Refusal::Range(2, 2, 2)), 1, b"range 2 to 2 of 2 frames\n")
    (EditFault::Refused(Refusal::Span(0, 3456, 2304)), 1, b"range 0 to 3456 of 2304 samples\n")
    (EditFault::Write(0), 3, b"b.mp3: write fault\n")
    (EditFault::Memory, 4, b"out of memory\n")
};

/// Faults of the bit rates that were asked for.
static RATE_LINES: [Line; 2] = [
    Line {
        fault: EditFault::Refused(Refusal::NoRate(100)),
        status: 1,
        line: b"no rate 100\n",
    },
    Line {
        fault: EditFault::Refused(Refusal::Unfit(2_899_999)),
        status: 1,
        line: b"frame 2899999 does not fit\n",
    },
];

/// Faults of commands with several files.
static SEVERAL_LINES: [Line; 7] = table! {
    Line { fault, status, line }
    (EditFault::Refused(Refusal::Differ(1)), 1, b"c.mp3: other class than the first input\n")
    (EditFault::Refused(Refusal::SheetTooLarge(65_537)), 1, b"c.mp3: sheet too large, 65537 bytes\n")
    (EditFault::Refused(Refusal::Sheet(CueFault::Line(12))), 1, b"c.mp3: bad line 12\n")
    (EditFault::Refused(Refusal::Sheet(CueFault::NotRising(9))), 1, b"c.mp3: not rising at line 9\n")
    (EditFault::Refused(Refusal::Sheet(CueFault::NoTracks)), 1, b"c.mp3: no tracks\n")
    (EditFault::EqualNames(1), 1, b"c.mp3: input is an output\n")
    (EditFault::Refused(Refusal::Exists(0)), 1, b"b.mp3: exists\n")
};

/// A sink of 100 bytes.
fn new_sink(alloc: Global) -> Result<MemSink, AllocError> {
    let mut sink = MemSink::new(alloc);
    sink.reserve(100)?;
    Ok(sink)
}

/// The line of the fault, as it is sent.
fn line_of(alloc: Global, fault: &EditFault) -> Result<MemSink, AllocError> {
    let mut err = new_sink(alloc)?;
    let inputs = ["a.mp3", "c.mp3"];
    send_fault(&mut err, fault, &inputs, &Outputs::One("b.mp3"));
    Ok(err)
}

/// The status of the fault, and its line.
fn expect_line<R: Abort + AllocGlobal>(rt: &R, case: &Line) -> Result<(), AllocError> {
    assert_eq!(rt; status(&case.fault), case.status);
    assert_eq!(rt; line_of(rt.alloc(), &case.fault)?.sent(), case.line);
    Ok(())
}

fn expect_lines<R: Abort + AllocGlobal>(rt: &R, cases: &[Line]) -> Result<(), AllocError> {
    for case in cases {
        expect_line(rt, case)?;
    }
    Ok(())
}

#[test]
fn lines(rt: HostRuntime) -> Result<(), Fail> {
    expect_lines(&rt, &INPUT_LINES)?;
    expect_lines(&rt, &LINES)?;
    expect_lines(&rt, &RATE_LINES)?;
    expect_lines(&rt, &SEVERAL_LINES)?;
    Ok(())
}

/// A fault of a piece of a split, and its line.
struct PieceLine {
    fault: EditFault,
    line: &'static [u8],
}

/// Names of pieces are counted from 1, and an output that isn't one of them has no name.
static PIECES: [PieceLine; 6] = table! {
    PieceLine { fault, line }
    (EditFault::Write(0), b"p01.mp3: write fault\n")
    (EditFault::Write(9), b"p10.mp3: write fault\n")
    (EditFault::Write(98), b"p99.mp3: write fault\n")
    (EditFault::Write(99), b": write fault\n")
    (EditFault::Refused(Refusal::Exists(1)), b"p02.mp3: exists\n")
    (EditFault::Refused(Refusal::Exists(98)), b"p99.mp3: exists\n")
};

#[test]
fn lines_of_pieces(rt: HostRuntime) -> Result<(), Fail> {
    for case in &PIECES {
        let mut err = new_sink(rt.alloc())?;
        send_fault(&mut err, &case.fault, &["a.mp3"], &Outputs::Pieces("p"));
        assert_eq!(rt; err.sent(), case.line);
    }
    Ok(())
}

#[test]
fn the_line_of_a_bad_word(rt: HostRuntime) -> Result<(), Fail> {
    let mut err = new_sink(rt.alloc())?;
    send_bad_word(&mut err, 5);
    assert_eq!(rt; err.sent(), b"bad word 5\n".as_slice());
    Ok(())
}

#[test]
fn a_line_stops_where_a_write_fails(rt: HostRuntime) -> Result<(), Fail> {
    let mut err = new_sink(rt.alloc())?;
    err.fail(2)?;
    let fault = EditFault::Input(0, SurveyFault::Overlap(7));
    send_fault(&mut err, &fault, &["a.mp3"], &Outputs::One("b.mp3"));
    assert_eq!(rt; err.sent(), b"a.mp3".as_slice());
    Ok(())
}
