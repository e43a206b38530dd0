//! Each command over a file of each class: it is done, so that none wants memory for one of them. What is
//! written then is compared by other rows, for some of the classes.

use crate::tests::Mp3edit;
use command_runs::running::{put, reserve, run_with_room};
use outside::MemFolder;
use std::alloc::{AllocError, AllocGlobal, Global};
use std::test::Fail;
use test_files::texts::{TextFault, bytes_of_words};

/// Two silent frames of each version and frequency, with two channels and with one: 128 kbit/s in MPEG-1 and 64 kbit/s
/// in the others.
static FILES: [&str; 18] = [
    "fffb9000 ~417 fffb9000 ~834",
    "fffb90c0 ~417 fffb90c0 ~834",
    "fffb9400 ~384 fffb9400 ~768",
    "fffb94c0 ~384 fffb94c0 ~768",
    "fffb9800 ~576 fffb9800 ~1152",
    "fffb98c0 ~576 fffb98c0 ~1152",
    "fff38000 ~208 fff38000 ~416",
    "fff380c0 ~208 fff380c0 ~416",
    "fff38400 ~192 fff38400 ~384",
    "fff384c0 ~192 fff384c0 ~384",
    "fff38800 ~288 fff38800 ~576",
    "fff388c0 ~288 fff388c0 ~576",
    "ffe38000 ~417 ffe38000 ~834",
    "ffe380c0 ~417 ffe380c0 ~834",
    "ffe38400 ~384 ffe38400 ~768",
    "ffe384c0 ~384 ffe384c0 ~768",
    "ffe38800 ~576 ffe38800 ~1152",
    "ffe388c0 ~576 ffe388c0 ~1152",
];

/// Each command with each of its flags that reads a file; `gain -u` undoes the change before it.
static COMMANDS: [&str; 22] = [
    "list a",
    "info a",
    "gain -s s -g 1 a o",
    "gain -g 1 a o",
    "gain -u o q",
    "fade a o f",
    "fade --back a o f",
    "cut a 0 1 o",
    "cut --least a 0 1 o",
    "cut --exact a 0 1 o",
    "remove a o 0 1",
    "pack a o",
    "pack --constant 128 a o",
    "pack --floor 32 a o",
    "pack --best a o",
    "split a p 0 1 2",
    "split a p -c c",
    "split --exact a p 0 1 2",
    "split --exact a p -c c",
    "join o a a",
    "join --seamless o a a",
    "salvage a o",
];

/// A sheet of one track, and one of a fade.
const TRACK: &[u8] = b"TRACK 01 AUDIO\nINDEX 01 00:00:00\n";

const FADE: &[u8] = b"0 1";

fn put_files(alloc: Global, folder: &mut MemFolder, file: &'static str) -> Result<(), TextFault> {
    let bytes = bytes_of_words(alloc, &[], file)?;
    put(folder, "a", &bytes)?;
    put(folder, "c", TRACK)?;
    put(folder, "f", FADE)?;
    for output in ["o", "q", "p01.mp3", "p02.mp3"] {
        reserve(folder, output, 10_000)?;
    }
    Ok(())
}

/// The first command that isn't done.
fn first_undone(alloc: Global, folder: &mut MemFolder) -> Result<Option<&'static str>, AllocError> {
    for words in &COMMANDS {
        match run_with_room::<Mp3edit, MemFolder>(alloc, folder, words)?.status {
            0 => {}
            4 => return Err(AllocError),
            _ => return Ok(Some(*words)),
        }
    }
    Ok(None)
}

/// The first command over this file that isn't done, or the file where its words stand for no bytes.
fn undone_over(alloc: Global, file: &'static str) -> Result<Option<&'static str>, AllocError> {
    let mut folder = MemFolder::new(alloc);
    match put_files(alloc, &mut folder, file) {
        Ok(()) => first_undone(alloc, &mut folder),
        Err(TextFault::Memory) => Err(AllocError),
        Err(TextFault::Word(_)) => Ok(Some(file)),
    }
}

#[test]
fn each_command_over_each_class(rt: HostRuntime) -> Result<(), Fail> {
    for file in &FILES {
        assert_eq!(rt; undone_over(rt.alloc(), *file)?, None, "{file}");
    }
    Ok(())
}
