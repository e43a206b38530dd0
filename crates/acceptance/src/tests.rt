//! Rows of each command, in a text or a folder of texts with its name; rows of all
//! commands; and tests that no row can express. The texts of `drill` and `salvage`
//! are called `drill_rows` and `salvage_rows`, since crates have the plain names.

mod classes;
mod cut;
mod drill_rows;
mod exact;
mod fade;
mod gain;
mod info;
mod join;
mod kept;
mod list;
mod many_frames;
mod names;
mod pack;
mod refused_inputs;
mod refused_words;
mod remove;
mod salvage_rows;
mod seamless;
mod shrinking;
mod song;
mod split;
mod standard_error;
mod taken;
mod undo;
mod wrong_rows;

use acceptance_kit::scripts::first_unlike;
use command_runs::running::Program;
use mp3_cli::run;
use outside::{Folder, MemSink};
use std::alloc::{AllocError, AllocGlobal, Global};
use std::process::Abort;
use std::test::Fail;
use test_files::texts::{Named, TextFault, bytes_of_words, define};

/// The program that is tested.
struct Mp3edit;

impl Program for Mp3edit {
    fn run<D: Folder>(
        alloc: Global,
        words: &[String],
        folder: &mut D,
        out: &mut MemSink,
        err: &mut MemSink,
    ) -> u8 {
        run(alloc, words, folder, out, err)
    }
}

fn define_lines(alloc: Global, names: &mut Vec<Named>) -> Result<(), TextFault> {
    for line in names::DEFINED.lines() {
        if line.contains(" = ") {
            define(alloc, names, line)?;
        }
    }
    Ok(())
}

fn bytes_named(alloc: Global, words: &'static str) -> Result<Vec<u8>, TextFault> {
    let mut names = Vec::new(alloc);
    define_lines(alloc, &mut names)?;
    bytes_of_words(alloc, &names, words)
}

/// The bytes of these words. Where a word stands for
/// no bytes, there are none, so that the test fails.
fn bytes_of(alloc: Global, words: &'static str) -> Result<Vec<u8>, AllocError> {
    match bytes_named(alloc, words) {
        Ok(bytes) => Ok(bytes),
        Err(TextFault::Memory) => Err(AllocError),
        Err(TextFault::Word(_)) => Ok(Vec::new(alloc)),
    }
}

/// Asserts that all rows of the texts end as they say.
fn expect_rows<R: Abort + AllocGlobal>(rt: &R, texts: &[&'static str]) -> Result<(), Fail> {
    let shared = [names::DEFINED];
    assert_eq!(rt; first_unlike::<Mp3edit>(rt.alloc(), &shared, texts)?, None);
    Ok(())
}

#[test]
fn lists(rt: HostRuntime) -> Result<(), Fail> {
    expect_rows(&rt, &[list::ROWS])
}

#[test]
fn says_what_files_are(rt: HostRuntime) -> Result<(), Fail> {
    expect_rows(&rt, &[info::ROWS])
}

#[test]
fn gains(rt: HostRuntime) -> Result<(), Fail> {
    let texts = [
        gain::failing_calls::ROWS,
        gain::files::ROWS,
        gain::frames::ROWS,
        gain::notes::ROWS,
        gain::refusals::ROWS,
    ];
    expect_rows(&rt, &texts)
}

#[test]
fn undos(rt: HostRuntime) -> Result<(), Fail> {
    let texts = [
        undo::changes::ROWS,
        undo::failing_calls::ROWS,
        undo::faulty_tags::ROWS,
        undo::files::ROWS,
        undo::refusals::ROWS,
    ];
    expect_rows(&rt, &texts)
}

#[test]
fn fades(rt: HostRuntime) -> Result<(), Fail> {
    expect_rows(&rt, &[fade::ROWS])
}

#[test]
fn cuts(rt: HostRuntime) -> Result<(), Fail> {
    expect_rows(&rt, &[cut::ROWS])
}

#[test]
fn exact_cuts(rt: HostRuntime) -> Result<(), Fail> {
    expect_rows(&rt, &[exact::ROWS])
}

#[test]
fn packs(rt: HostRuntime) -> Result<(), Fail> {
    expect_rows(&rt, &[pack::ROWS])
}

#[test]
fn splits(rt: HostRuntime) -> Result<(), Fail> {
    expect_rows(&rt, &[split::ROWS])
}

#[test]
fn joins(rt: HostRuntime) -> Result<(), Fail> {
    expect_rows(&rt, &[join::ROWS])
}

#[test]
fn joins_without_seams(rt: HostRuntime) -> Result<(), Fail> {
    expect_rows(&rt, &[seamless::ROWS])
}

#[test]
fn removes(rt: HostRuntime) -> Result<(), Fail> {
    expect_rows(&rt, &[remove::ROWS])
}

#[test]
fn salvages(rt: HostRuntime) -> Result<(), Fail> {
    expect_rows(&rt, &[salvage_rows::ROWS])
}

#[test]
fn drills(rt: HostRuntime) -> Result<(), Fail> {
    expect_rows(&rt, &[drill_rows::ROWS])
}

#[test]
fn keeps_what_is_there(rt: HostRuntime) -> Result<(), Fail> {
    expect_rows(&rt, &[kept::ROWS])
}

#[test]
fn refusals(rt: HostRuntime) -> Result<(), Fail> {
    let texts = [
        refused_inputs::ROWS,
        refused_words::ROWS,
        standard_error::ROWS,
    ];
    expect_rows(&rt, &texts)
}

#[test]
fn a_whole_song(rt: HostRuntime) -> Result<(), Fail> {
    expect_rows(&rt, &[song::ROWS])
}

/// Asserts the same of a text that has the frames of `many_frames`.
fn expect_long_rows<R: Abort + AllocGlobal>(rt: &R, text: &'static str) -> Result<(), Fail> {
    let shared = [names::DEFINED, many_frames::DEFINED];
    assert_eq!(rt;
        first_unlike::<Mp3edit>(rt.alloc(), &shared, &[text])?,
        None
    );
    Ok(())
}

#[test]
fn each_command_over_many_frames(rt: HostRuntime) -> Result<(), Fail> {
    expect_long_rows(&rt, many_frames::ONE_CHANNEL)
}

#[test]
fn each_command_over_many_frames_of_two_channels(rt: HostRuntime) -> Result<(), Fail> {
    expect_long_rows(&rt, many_frames::TWO_CHANNELS)
}

#[test]
fn splits_into_as_many_pieces_as_there_may_be(rt: HostRuntime) -> Result<(), Fail> {
    expect_long_rows(&rt, many_frames::PIECES)
}

/// Asserts the same of a text over more than a million frames. Each has a test of its own, since a test has little time.
fn expect_longest_rows<R: Abort + AllocGlobal>(rt: &R, text: &'static str) -> Result<(), Fail> {
    let shared = [names::DEFINED, many_frames::DEFINED, many_frames::MILLION];
    assert_eq!(rt;
        first_unlike::<Mp3edit>(rt.alloc(), &shared, &[text])?,
        None
    );
    Ok(())
}

#[test]
fn cuts_a_million_frames(rt: HostRuntime) -> Result<(), Fail> {
    expect_longest_rows(&rt, many_frames::MILLION_CUT)
}

#[test]
fn removes_from_a_million_frames(rt: HostRuntime) -> Result<(), Fail> {
    expect_longest_rows(&rt, many_frames::MILLION_REMOVE)
}

#[test]
fn joins_a_million_frames_without_a_seam(rt: HostRuntime) -> Result<(), Fail> {
    expect_longest_rows(&rt, many_frames::MILLION_SEAMLESS)
}
