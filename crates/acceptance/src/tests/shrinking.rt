//! Inputs that a folder finds with another length than it reads, that become shorter while they are read, or that are too long; and a
//! folder that reads and writes a few bytes at a time, where things go wrong once the output was created.
ghost use Rattle.std.specs.Prelude.{◌≡◌, ◌≤◌, length, drop};

use crate::tests::{Mp3edit, bytes_of};
use command_runs::differences::{Found, other_end};
use command_runs::running::put;
use outside::{Failed, FindFault, Folder, MemFolder, ShortFolder, Tally};
use std::alloc::{AllocError, AllocGlobal, Global};
use std::process::Abort;
use std::test::Fail;
use test_files::table;

/// What happens to the files.
#[derive(Clone, Copy, Debug, PartialEq, Eq)]
enum Trouble {
    Nothing,
    /// After this many reads they have no more than this length.
    Short(u64, usize),
    /// They have no more than this length once the output was created.
    Shorter(usize),
    /// Once the output was created, reads from this offset on fail.
    Unread(u64),
    /// Writes fail after this many bytes.
    Unwritten(usize),
}

/// A sheet of one track, 33 bytes.
const TRACK: &[u8] = b"TRACK 01 AUDIO\nINDEX 01 00:00:00\n";

/// A sheet of a fade.
const FADE: &[u8] = b"0 -5";

/// More bytes than any output here has, so that no write runs out of memory.
const MOST_WRITTEN: usize = 100_000;

/// A folder with the sheets `cue` and `fade`, whose other files are all found with one length and have these bytes. At most 1,000
/// bytes are read at once, and 700 written. Its contents aren't known.
#[derive(Drop)]
struct Changing {
    found: u64,
    bytes: Vec<u8>,
    trouble: Trouble,
    reads: u64,
    output: Vec<u8>,
    created: u64,
    /// Whether the second piece of a split was created, or written.
    second: bool,
    ends: u64,
    tally: Tally,
}

impl Changing {
    fn new(found: u64, bytes: Vec<u8>, trouble: Trouble, output: Vec<u8>) -> Self {
        Changing {
            found,
            bytes,
            trouble,
            reads: 0,
            output,
            created: 0,
            second: false,
            ends: 0,
            tally: Tally::new(),
        }
    }

    /// How many of `length` bytes there are to read.
    fn readable(&self, length: usize) -> usize {
        match self.trouble {
            Trouble::Short(reads, shorter) if reads < self.reads => length.min(shorter),
            Trouble::Shorter(shorter) if self.created > 0 => length.min(shorter),
            _ => length,
        }
    }

    fn fails_to_read(&self, at: u64) -> bool {
        match self.trouble {
            Trouble::Unread(from) => self.created > 0 && from <= at,
            _ => false,
        }
    }

    fn fails_to_write(&self) -> bool {
        match self.trouble {
            Trouble::Unwritten(most) => most <= self.output.len(),
            _ => false,
        }
    }
}

/// Copies at most 1,000 bytes from an offset on, of the `there` bytes that can be read.
fn copy_some(content: &[u8], at: u64, there: usize, into: &mut [u8]) -> usize
    ensures count { result ≤ length into.old }
    ensures rest { drop result into.new ≡ drop result into.old }
{
    let end = there.min(content.len());
    let begin = (at as usize).min(end);
    let count = into.len().min(end - begin).min(1000);
    into[..count].copy_from_slice(&content[begin..begin + count]);
    count
}

/// The bytes of a whole file.
fn whole<'a>(name: &str, bytes: &'a [u8]) -> &'a [u8] {
    match name {
        "cue" => TRACK,
        "fade" => FADE,
        _ => bytes,
    }
}

fn is_second_piece(name: &str) -> bool {
    name == "p02.mp3"
}

/// The length with which a file is found.
fn found(name: &str, other: u64) -> u64 {
    match name {
        "cue" => 33,
        "fade" => 4,
        _ => other,
    }
}

impl Folder for Changing {
    ghost use Rattle.std.specs.Prelude.{false};
    ghost use Rattle.outside.specs.Files.{untold_files};

    ghost seen = { λ folder. record { files = untold_files; counts = folder.tally } };

    ghost keeping = { false };

    fn keeps(&self) -> bool {
        false
    }

    fn find(&mut self, name: &str) -> Result<u64, FindFault> {
        Ok(found(name, self.found))
    }

    fn read(&mut self, name: &str, at: u64, into: &mut [u8]) -> Result<usize, Failed> {
        self.reads = self.reads.saturating_add(1);
        if self.fails_to_read(at) {
            self.tally.count_read_fault(name);
            return Err(Failed);
        }
        let bytes = whole(name, &self.bytes);
        let there = self.readable(bytes.len());
        let count = copy_some(bytes, at, there, into);
        if count == 0 && !into.is_empty() {
            self.ends = self.ends.saturating_add(1);
            self.tally.count_end(name, at);
        }
        Ok(count)
    }

    fn there(&mut self, _name: &str) -> Result<bool, Failed> {
        Ok(false)
    }

    #[tactic(auto, using(outside::proofs::FilesLemmas::untold_made))]
    fn create_new(&mut self, name: &str) -> Result<(), Failed> {
        self.second |= is_second_piece(name);
        self.output.clear();
        self.created = self.created.saturating_add(1);
        Ok(())
    }

    #[tactic(auto, using(outside::proofs::FilesLemmas::untold_created))]
    fn create(&mut self, name: &str) -> Result<(), Failed> {
        self.second |= is_second_piece(name);
        self.output.clear();
        self.created = self.created.saturating_add(1);
        Ok(())
    }

    fn write(&mut self, name: &str, bytes: &[u8]) -> Result<usize, Failed> {
        self.second |= is_second_piece(name);
        let count = bytes.len().min(700);
        if self.fails_to_write() || self.output.extend_from_slice(&bytes[..count]).is_err() {
            self.tally.count_write_fault(name);
            return Err(Failed);
        }
        Ok(count)
    }
}

/// A command over such files, and how it ends: its status and line, how often a read meets the end of a file, and how many outputs
/// are created.
struct Case {
    words: &'static str,
    found: u64,
    trouble: Trouble,
    status: u8,
    line: &'static str,
    ends: u64,
    created: u64,
}

/// Asserts that the second piece of a split was left alone where one output was created.
fn expect_first_alone<R: Abort>(rt: &R, folder: &Changing, case: &Case) {
    assert_eq!(rt;
        folder.second,
        case.created > 1,
        "{} {}",
        case.words,
        case.line
    );
}

/// Asserts how the command ends, how often the end was met, and how many outputs were created.
fn expect_over<R: Abort + AllocGlobal>(
    rt: &R,
    folder: &mut Changing,
    case: &Case,
) -> Result<(), AllocError> {
    let other = other_end::<Mp3edit, Changing>(
        rt.alloc(),
        folder,
        case.words,
        case.status,
        case.line,
    )?;
    assert_eq!(rt; other, None, "{} {}", case.words, case.line);
    assert_eq!(rt; folder.ends, case.ends, "{} {}", case.words, case.line);
    assert_eq!(rt;
        folder.created,
        case.created,
        "{} {}",
        case.words, case.line
    );
    expect_first_alone(rt, folder, case);
    Ok(())
}

fn expect_case<R: Abort + AllocGlobal>(
    rt: &R,
    case: &Case,
    file: &'static str,
) -> Result<(), AllocError> {
    let bytes = bytes_of(rt.alloc(), file)?;
    let output = Vec::with_capacity(rt.alloc(), MOST_WRITTEN)?;
    let mut folder = Changing::new(case.found, bytes, case.trouble, output);
    expect_over(rt, &mut folder, case)
}

fn expect_cases<R: Abort + AllocGlobal>(
    rt: &R,
    cases: &[Case],
    file: &'static str,
) -> Result<(), AllocError> {
    for case in cases {
        expect_case(rt, case, file)?;
    }
    Ok(())
}

// Nothing is read of the last file.
static FOUND: [Case; 3] = table! {
    Case { words, found, trouble, status, line, ends, created }
    ("gain -s s -g 1 a o", 834, Trouble::Short(0, 417), 3, "a: shrunk from 834 to 417\n", 1, 0)
    ("gain -s s -g 1 a o", 1, Trouble::Short(0, 0), 3, "a: shrunk from 1 to 0\n", 1, 0)
    ("gain -s s -g 1 a o", 1_073_741_825, Trouble::Short(0, 0), 1, "a: too long, 1073741825 bytes\n", 0, 0)
};

#[test]
fn inputs_that_shrink_or_are_too_long(rt: HostRuntime) -> Result<(), Fail> {
    expect_cases(&rt, &FOUND, "00*417")?;
    Ok(())
}

// The survey makes the first read, and the tag is read by the second.
static SHRUNK: [Case; 10] = table! {
    Case { words, found, trouble, status, line, ends, created }
    ("gain -g 1 a o", 513, Trouble::Short(0, 500), 3, "a: shrunk from 513 to 500\n", 1, 0)
    ("gain -u a o", 513, Trouble::Short(0, 500), 3, "a: shrunk from 513 to 500\n", 1, 0)
    ("gain -g 1 a o", 513, Trouble::Short(1, 512), 3, "a: shrunk from 513 to 512\n", 1, 0)
    ("gain -u a o", 513, Trouble::Short(1, 512), 3, "a: shrunk from 513 to 512\n", 1, 0)
    ("gain -g 1 a o", 513, Trouble::Short(1, 417), 3, "a: shrunk from 513 to 417\n", 1, 0)
    ("gain -u a o", 513, Trouble::Short(1, 417), 3, "a: shrunk from 513 to 417\n", 1, 0)
    ("gain -g 1 a o", 513, Trouble::Short(1, 100), 3, "a: shrunk from 513 to 417\n", 1, 0)
    ("gain -u a o", 513, Trouble::Short(1, 100), 3, "a: shrunk from 513 to 417\n", 1, 0)
    ("gain -g 1 a o", 513, Trouble::Short(2, 100), 3, "a: shrunk from 513 to 100\n", 1, 1)
    ("gain -u a o", 513, Trouble::Short(2, 100), 3, "a: shrunk from 513 to 100\n", 1, 1)
};

#[test]
fn a_file_that_becomes_shorter(rt: HostRuntime) -> Result<(), Fail> {
    expect_cases(&rt, &SHRUNK, "NOTED_FRAME")?;
    Ok(())
}

// Each survey makes one read, and so do a sheet and the second pass over each input. The line names the file that became shorter, and
// nothing but the output is created.
static READ: [Case; 32] = table! {
    Case { words, found, trouble, status, line, ends, created }
    ("list a", 513, Trouble::Short(0, 100), 3, "a: shrunk from 513 to 100\n", 1, 0)
    ("info a", 513, Trouble::Short(0, 100), 3, "a: shrunk from 513 to 100\n", 1, 0)
    ("gain -s s -g 1 a o", 513, Trouble::Short(1, 100), 3, "a: shrunk from 513 to 100\n", 1, 1)
    ("fade a o fade", 513, Trouble::Short(0, 100), 3, "a: shrunk from 513 to 100\n", 1, 0)
    ("fade a o fade", 513, Trouble::Short(1, 3), 3, "fade: shrunk from 4 to 3\n", 1, 0)
    ("fade a o fade", 513, Trouble::Short(2, 100), 3, "a: shrunk from 513 to 100\n", 1, 1)
    ("fade --back a o fade", 513, Trouble::Short(2, 100), 3, "a: shrunk from 513 to 100\n", 1, 1)
    ("cut a 0 1 o", 513, Trouble::Short(1, 100), 3, "a: shrunk from 513 to 100\n", 1, 1)
    ("cut --least a 0 1 o", 513, Trouble::Short(1, 100), 3, "a: shrunk from 513 to 100\n", 1, 1)
    ("cut --exact a 0 1 o", 513, Trouble::Short(0, 100), 3, "a: shrunk from 513 to 100\n", 1, 0)
    ("cut --exact a 0 1 o", 513, Trouble::Short(1, 100), 3, "a: shrunk from 513 to 100\n", 1, 1)
    ("pack a o", 513, Trouble::Short(1, 100), 3, "a: shrunk from 513 to 100\n", 1, 1)
    ("pack --constant 128 a o", 513, Trouble::Short(1, 100), 3, "a: shrunk from 513 to 100\n", 1, 1)
    ("pack --floor 32 a o", 513, Trouble::Short(1, 100), 3, "a: shrunk from 513 to 100\n", 1, 1)
    ("pack --best a o", 513, Trouble::Short(1, 100), 3, "a: shrunk from 513 to 100\n", 1, 1)
    ("split a p 0 1", 513, Trouble::Short(1, 100), 3, "a: shrunk from 513 to 100\n", 1, 1)
    ("split a p -c cue", 513, Trouble::Short(0, 100), 3, "a: shrunk from 513 to 100\n", 1, 0)
    ("split a p -c cue", 513, Trouble::Short(1, 20), 3, "cue: shrunk from 33 to 20\n", 1, 0)
    ("split a p -c cue", 513, Trouble::Short(2, 100), 3, "a: shrunk from 513 to 100\n", 1, 1)
    ("split --exact a p 0 1", 513, Trouble::Short(1, 100), 3, "a: shrunk from 513 to 100\n", 1, 1)
    ("split --exact a p -c cue", 513, Trouble::Short(0, 100), 3, "a: shrunk from 513 to 100\n", 1, 0)
    ("split --exact a p -c cue", 513, Trouble::Short(1, 20), 3, "cue: shrunk from 33 to 20\n", 1, 0)
    ("split --exact a p -c cue", 513, Trouble::Short(2, 100), 3, "a: shrunk from 513 to 100\n", 1, 1)
    ("join o a c", 513, Trouble::Short(0, 100), 3, "a: shrunk from 513 to 100\n", 1, 0)
    ("join o a c", 513, Trouble::Short(1, 100), 3, "c: shrunk from 513 to 100\n", 1, 0)
    ("join o a c", 513, Trouble::Short(2, 100), 3, "a: shrunk from 513 to 100\n", 1, 1)
    ("join o a c", 513, Trouble::Short(3, 100), 3, "c: shrunk from 513 to 100\n", 1, 1)
    ("join --seamless o a c", 513, Trouble::Short(0, 100), 3, "a: shrunk from 513 to 100\n", 1, 0)
    ("join --seamless o a c", 513, Trouble::Short(1, 100), 3, "c: shrunk from 513 to 100\n", 1, 0)
    ("join --seamless o a c", 513, Trouble::Short(2, 100), 3, "a: shrunk from 513 to 100\n", 1, 1)
    ("join --seamless o a c", 513, Trouble::Short(3, 100), 3, "c: shrunk from 513 to 100\n", 1, 1)
    ("salvage a o", 513, Trouble::Short(1, 100), 3, "a: shrunk from 513 to 100\n", 1, 1)
};

// 864 bytes: the head is the 417 bytes from byte 30 on. It is read after the survey, in a join after both surveys; in the second pass its
// area, from byte 66 on, is the first part that is missing.
static HEADED: [Case; 7] = table! {
    Case { words, found, trouble, status, line, ends, created }
    ("info a", 864, Trouble::Short(1, 35), 3, "a: shrunk from 864 to 35\n", 1, 0)
    ("pack a o", 864, Trouble::Short(1, 35), 3, "a: shrunk from 864 to 35\n", 1, 0)
    ("pack --best a o", 864, Trouble::Short(1, 35), 3, "a: shrunk from 864 to 35\n", 1, 0)
    ("pack a o", 864, Trouble::Short(2, 35), 3, "a: shrunk from 864 to 66\n", 1, 1)
    ("cut --exact a 0 1 o", 864, Trouble::Short(1, 35), 3, "a: shrunk from 864 to 35\n", 1, 0)
    ("split --exact a p 0 1", 864, Trouble::Short(1, 35), 3, "a: shrunk from 864 to 35\n", 1, 0)
    ("join --seamless o a c", 864, Trouble::Short(2, 35), 3, "a: shrunk from 864 to 35\n", 1, 0)
};

// 216 bytes: a head and two frames of 72 bytes each. The head is read after the survey, and the second frame's main data, at byte 157, in
// the second pass.
static REMOVED: [Case; 4] = table! {
    Case { words, found, trouble, status, line, ends, created }
    ("remove a o 0 1", 216, Trouble::Short(0, 100), 3, "a: shrunk from 216 to 100\n", 1, 0)
    ("remove a o 0 1", 216, Trouble::Short(1, 20), 3, "a: shrunk from 216 to 20\n", 1, 0)
    ("remove a o 0 1", 216, Trouble::Short(2, 157), 3, "a: shrunk from 216 to 157\n", 1, 1)
    ("-n remove a o 0 1", 216, Trouble::Short(2, 157), 3, "a: shrunk from 216 to 157\n", 1, 1)
};

// 200 frames, 83,400 bytes, the first 65,536 of which are read at once. The second piece of a split isn't created before the first is
// whole.
static PIECES: [Case; 4] = table! {
    Case { words, found, trouble, status, line, ends, created }
    ("split a p 0 100 EOF", 83_400, Trouble::Shorter(40_000), 3, "a: shrunk from 83400 to 40000\n", 1, 1)
    ("split a p 0 100 EOF", 83_400, Trouble::Shorter(70_000), 3, "a: shrunk from 83400 to 70000\n", 1, 2)
    ("split --exact a p 0 100 EOF", 83_400, Trouble::Shorter(40_000), 3, "a: shrunk from 83400 to 40000\n", 1, 1)
    ("split --exact a p 0 100 EOF", 83_400, Trouble::Shorter(70_000), 3, "a: shrunk from 83400 to 70000\n", 1, 2)
};

#[test]
fn each_command_over_files_that_become_shorter(rt: HostRuntime) -> Result<(), Fail> {
    expect_cases(&rt, &READ, "NOTED_FRAME")?;
    expect_cases(&rt, &HEADED, "ID3V2_OF_30 41*20 FULL_HEAD PLAIN")?;
    expect_cases(&rt, &REMOVED, "ffe318c0 00*9 'Info' ~72 LOWEST LOWEST")?;
    expect_cases(&rt, &PIECES, "PLAIN*200")?;
    Ok(())
}

/// A file that is found `extra` bytes longer than it is, and how a command over it ends: its status and line.
struct Longer {
    name: &'static str,
    file: &'static str,
    extra: u64,
    words: &'static str,
    status: u8,
    line: &'static str,
}

static LONGER: [Longer; 2] = table! {
    Longer { name, file, extra, words, status, line }
    ("a", "FIRST SECOND", 5, "list a", 3, "a: shrunk from 839 to 834\n")
    ("z", "fffb9000 ~417", 1_073_741_824, "list z", 1, "z: too long, 1073742241 bytes\n")
};

/// How the command doesn't end as the case says.
fn other_end_of(alloc: Global, case: &Longer) -> Result<Option<Found>, AllocError> {
    let bytes = bytes_of(alloc, case.file)?;
    let mut inner = MemFolder::new(alloc);
    put(&mut inner, case.name, &bytes)?;
    let mut folder = ShortFolder::new(inner, case.extra);
    other_end::<Mp3edit, ShortFolder>(alloc, &mut folder, case.words, case.status, case.line)
}

#[test]
fn files_that_are_found_longer_than_they_are(rt: HostRuntime) -> Result<(), Fail> {
    for case in &LONGER {
        assert_eq!(rt; other_end_of(rt.alloc(), case)?, None, "{}", case.words);
    }
    Ok(())
}

/// What goes wrong once the output was created, the status and the line, and how many bytes were written.
struct Slow {
    trouble: Trouble,
    status: u8,
    line: &'static str,
    written: usize,
}

static SLOW: [Slow; 4] = table! {
    Slow { trouble, status, line, written }
    (Trouble::Nothing, 0, "", 76_090)
    (Trouble::Unread(70_000), 3, "quiet: read fault\n", 65_537)
    (Trouble::Shorter(70_000), 3, "quiet: shrunk from 76097 to 70000\n", 65_537)
    (Trouble::Unwritten(70_000), 3, "loud: write fault\n", 70_437)
};

/// Asserts how the command ends, and that the case's number of bytes were written, which are the first of `loud`.
fn expect_slow<R: Abort + AllocGlobal>(
    rt: &R,
    folder: &mut Changing,
    case: &Slow,
    loud: &[u8],
) -> Result<(), AllocError> {
    let words = "gain -s s -w -g 1 quiet loud";
    let other = other_end::<Mp3edit, Changing>(rt.alloc(), folder, words, case.status, case.line)?;
    assert_eq!(rt; other, None, "{:?}", case.trouble);
    assert_eq!(rt; folder.output.len(), case.written, "{:?}", case.trouble);
    assert!(rt; loud.starts_with(&folder.output), "{:?}", case.trouble);
    Ok(())
}

fn expect_slow_over_quiet<R: Abort + AllocGlobal>(
    rt: &R,
    case: &Slow,
    loud: &[u8],
) -> Result<(), AllocError> {
    let quiet = bytes_of(rt.alloc(), "QUIET_FILE")?;
    let output = Vec::with_capacity(rt.alloc(), MOST_WRITTEN)?;
    let mut folder = Changing::new(quiet.len() as u64, quiet, case.trouble, output);
    expect_slow(rt, &mut folder, case, loud)
}

#[test]
fn reads_and_writes_a_few_bytes_at_a_time(rt: HostRuntime) -> Result<(), Fail> {
    let loud = bytes_of(rt.alloc(), "LOUD_FILE")?;
    for case in &SLOW {
        expect_slow_over_quiet(&rt, case, &loud)?;
    }
    Ok(())
}
