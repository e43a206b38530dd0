//! A folder that gives and takes few bytes at a time.
use outside::{Failed, FindFault, Folder, Tally};
use std::alloc::{AllocError, Global};

/// How many calls of `read` and `write` there were, and which of them fails.
#[derive(Drop)]
pub struct Calls {
    pub made: u64,
    pub failing: u64,
}

impl Calls {
    fn next_fails(&mut self) -> bool {
        self.made = self.made.saturating_add(1);
        self.made == self.failing
    }
}

/// A folder of one file, which gives and takes at most
/// `most` bytes at a time. Its contents aren't known.
#[derive(Drop)]
pub struct Slow {
    pub content: Vec<u8>,
    pub most: usize,
    pub calls: Calls,
    tally: Tally,
}

impl Slow {
    pub fn new(
        alloc: Global,
        length: usize,
        most: usize,
        failing: u64,
    ) -> Result<Slow, AllocError> {
        Ok(Slow {
            content: pattern(alloc, length)?,
            most,
            calls: Calls { made: 0, failing },
            tally: Tally::new(),
        })
    }
}

/// The byte that the file has at this place: it differs at any two places less than 251 apart.
pub fn byte_at(place: usize) -> u8 {
    (place % 251) as u8
}

/// Whether the file has these bytes from this place on.
pub fn stand_at(bytes: &[u8], at: u64) -> bool {
    let mut place = at as usize;
    for byte in bytes {
        if *byte != byte_at(place) {
            return false;
        }
        place = place.saturating_add(1);
    }
    true
}

/// The first `length` bytes of such a file.
pub fn pattern(alloc: Global, length: usize) -> Result<Vec<u8>, AllocError> {
    let mut bytes = Vec::with_capacity(alloc, length)?;
    for place in 0..length {
        bytes.push(byte_at(place))?;
    }
    Ok(bytes)
}

impl Folder for Slow {
    ghost use Rattle.std.specs.Prelude.{false};
    ghost use Rattle.outside.specs.Files.{untold_files};

    ghost seen = { λ folder. record { files = untold_files; counts = folder.tally } };

    ghost keeping = { false };

    fn keeps(&self) -> bool {
        false
    }

    fn find(&mut self, _name: &str) -> Result<u64, FindFault> {
        Ok(self.content.len() as u64)
    }

    fn read(&mut self, name: &str, at: u64, into: &mut [u8]) -> Result<usize, Failed> {
        if self.calls.next_fails() {
            self.tally.count_read_fault(name);
            return Err(Failed);
        }
        let start = self.content.len().min(at as usize);
        let got = into.len().min(self.most).min(self.content.len() - start);
        into[..got].copy_from_slice(&self.content[start..start + got]);
        if got == 0 && !into.is_empty() {
            self.tally.count_end(name, at);
        }
        Ok(got)
    }

    fn there(&mut self, _name: &str) -> Result<bool, Failed> {
        Ok(true)
    }

    fn create_new(&mut self, name: &str) -> Result<(), Failed> {
        self.tally.count_write_fault(name);
        Err(Failed)
    }

    #[tactic(auto, using(outside::proofs::FilesLemmas::untold_created))]
    fn create(&mut self, _name: &str) -> Result<(), Failed> {
        self.content.clear();
        Ok(())
    }

    fn write(&mut self, name: &str, bytes: &[u8]) -> Result<usize, Failed> {
        if self.calls.next_fails() {
            self.tally.count_write_fault(name);
            return Err(Failed);
        }
        let taken = bytes.len().min(self.most.max(1));
        if self.content.extend_from_slice(&bytes[..taken]).is_err() {
            self.tally.count_write_fault(name);
            return Err(Failed);
        }
        Ok(taken)
    }
}
