//! Outputs that somebody else makes after they were asked for, and one that is there in a folder whose contents aren't known.
ghost use Rattle.std.specs.Prelude.{◌≡◌};

use crate::tests::{Mp3edit, bytes_of};
use command_runs::differences::{Found, other_end};
use command_runs::running::put;
use outside::{Failed, FindFault, Folder, MemFolder, ShortFolder, Tally};
use std::alloc::{AllocError, AllocGlobal, Global};
use std::process::Abort;
use std::test::Fail;
use test_files::table;

/// The bytes of a file that somebody else makes.
const OTHER: &[u8] = b"kept";

/// More bytes than any output here has, so that no write runs out of memory.
const MOST_WRITTEN: usize = 2000;

/// A folder of one input. No output is there when it is asked for, but somebody else makes one of this name just before it is
/// created. The folder's contents aren't known.
#[derive(Drop)]
struct Taken {
    input: Vec<u8>,
    taken: &'static str,
    /// How many bytes the output before the last one has, and what the last one holds.
    before: usize,
    last: Vec<u8>,
    tally: Tally,
}

impl Taken {
    /// Puts the last output behind, and begins with one that is empty, or that somebody else has just made.
    fn begin(&mut self, name: &str)
        ensures { self.new.tally ≡ self.old.tally }
    {
        self.before = self.last.len();
        self.last.clear();
        if name == self.taken {
            let _ = self.last.extend_from_slice(OTHER);
        }
    }
}

impl Folder for Taken {
    ghost use Rattle.std.specs.Prelude.{false};
    ghost use Rattle.outside.specs.Files.{untold_files};

    ghost seen = { λ folder. record { files = untold_files; counts = folder.tally } };

    ghost keeping = { false };

    fn keeps(&self) -> bool {
        false
    }

    fn find(&mut self, _name: &str) -> Result<u64, FindFault> {
        Ok(self.input.len() as u64)
    }

    fn read(&mut self, name: &str, at: u64, into: &mut [u8]) -> Result<usize, Failed> {
        let begin = self.input.len().min(at as usize);
        let count = into.len().min(self.input.len() - begin);
        into[..count].copy_from_slice(&self.input[begin..begin + count]);
        if count == 0 && !into.is_empty() {
            self.tally.count_end(name, at);
        }
        Ok(count)
    }

    fn there(&mut self, _name: &str) -> Result<bool, Failed> {
        Ok(false)
    }

    #[tactic(auto, using(outside::proofs::FilesLemmas::untold_created))]
    fn create(&mut self, name: &str) -> Result<(), Failed> {
        self.begin(name);
        self.last.clear();
        Ok(())
    }

    #[tactic(auto, using(outside::proofs::FilesLemmas::untold_made))]
    fn create_new(&mut self, name: &str) -> Result<(), Failed> {
        self.begin(name);
        if name == self.taken {
            self.tally.count_write_fault(name);
            return Err(Failed);
        }
        Ok(())
    }

    fn write(&mut self, name: &str, bytes: &[u8]) -> Result<usize, Failed> {
        if self.last.extend_from_slice(bytes).is_err() {
            self.tally.count_write_fault(name);
            return Err(Failed);
        }
        Ok(bytes.len())
    }
}

/// A command, the output that somebody else makes, the line, and how many bytes the output before it has.
struct Case {
    words: &'static str,
    taken: &'static str,
    line: &'static str,
    before: usize,
}

// The first piece has 208 + 417 bytes.
static CASES: [Case; 3] = table! {
    Case { words, taken, line, before }
    ("-n cut a 0 2 o", "o", "o: write fault\n", 0)
    ("-n remove a o 0 1", "o", "o: write fault\n", 0)
    ("-n split a p 0 1 2", "p02.mp3", "p02.mp3: write fault\n", 625)
};

/// Asserts that the command ends with status 3 and the line, that
/// the other's file stays, and that the outputs before it are whole.
fn expect_kept<R: Abort + AllocGlobal>(
    rt: &R,
    folder: &mut Taken,
    case: &Case,
) -> Result<(), AllocError> {
    let other = other_end::<Mp3edit, Taken>(rt.alloc(), folder, case.words, 3, case.line)?;
    assert_eq!(rt; other, None, "{}", case.words);
    assert!(rt; folder.last.as_slice() == OTHER, "{}", case.words);
    assert_eq!(rt; folder.before, case.before, "{}", case.words);
    Ok(())
}

fn expect_case<R: Abort + AllocGlobal>(rt: &R, case: &Case) -> Result<(), AllocError> {
    let mut folder = Taken {
        input: bytes_of(rt.alloc(), "A")?,
        taken: case.taken,
        before: 0,
        last: Vec::with_capacity(rt.alloc(), MOST_WRITTEN)?,
        tally: Tally::new(),
    };
    expect_kept(rt, &mut folder, case)
}

#[test]
fn outputs_that_somebody_else_makes(rt: HostRuntime) -> Result<(), Fail> {
    for case in &CASES {
        expect_case(&rt, case)?;
    }
    Ok(())
}

/// A folder with `a` and `o`, whose contents aren't known.
fn two_files(alloc: Global) -> Result<ShortFolder, AllocError> {
    let bytes = bytes_of(alloc, "A")?;
    let mut inner = MemFolder::new(alloc);
    put(&mut inner, "a", &bytes)?;
    put(&mut inner, "o", OTHER)?;
    Ok(ShortFolder::new(inner, 0))
}

/// How the command ends otherwise than it should, or leaves other bytes.
fn other_end_over(alloc: Global, folder: &mut ShortFolder) -> Result<Option<Found>, AllocError> {
    let words = "-n cut a 0 2 o";
    let other = other_end::<Mp3edit, ShortFolder>(alloc, folder, words, 1, "o: exists\n")?;
    if folder.get("o") != Some(OTHER) {
        return Ok(Some(Found::of("other bytes", "o")));
    }
    Ok(other)
}

#[test]
fn an_output_in_a_folder_that_is_not_known(rt: HostRuntime) -> Result<(), Fail> {
    let mut folder = two_files(rt.alloc())?;
    assert_eq!(rt; other_end_over(rt.alloc(), &mut folder)?, None);
    Ok(())
}
