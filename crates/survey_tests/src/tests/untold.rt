//! A folder whose contents aren't known.
ghost use Rattle.std.specs.Prelude.{false, ◌≡◌, ◌-◌, length, drop, min};
ghost use Rattle.outside.specs.Files.{untold_files, Untold};

use outside::{Failed, FindFault, Folder, Tally};

/// A folder whose contents aren't known. Its one file is found with any given length, has one list of bytes at the
/// first read, and another list later.
#[derive(Drop)]
pub struct Untold<'a> {
    pub found: u64,
    pub first: &'a [u8],
    pub later: &'a [u8],
    reads: u64,
    tally: Tally,
}

impl<'a> Untold<'a> {
    pub fn new(found: u64, first: &'a [u8], later: &'a [u8]) -> Untold<'a> {
        Untold {
            found,
            first,
            later,
            reads: 0,
            tally: Tally::new(),
        }
    }

    pub fn reads(&self) -> u64 {
        self.reads
    }
}

/// Copies the bytes from a place on, as many as there are and fit, and returns how many.
fn copy_from(content: &[u8], at: u64, into: &mut [u8]) -> usize
    ensures count { result ≡ min (length into.old) (length content.now - at) }
    ensures rest { drop result into.new ≡ drop result into.old }
{
    if at >= content.len() as u64 {
        return 0;
    }
    let rest = &content[at as usize..];
    let count = rest.len().min(into.len());
    into[..count].copy_from_slice(&rest[..count]);
    count
}

impl<'a> Folder for Untold<'a> {
    ghost seen = { λ folder. record { files = untold_files; counts = folder.tally } };

    ghost keeping = { false };

    fn keeps(&self) -> bool {
        false
    }

    fn find(&mut self, _name: &str) -> Result<u64, FindFault> {
        Ok(self.found)
    }

    fn read(&mut self, name: &str, at: u64, into: &mut [u8]) -> Result<usize, Failed> {
        let content = if self.reads == 0 {
            self.first
        } else {
            self.later
        };
        self.reads = self.reads.saturating_add(1);
        let count = copy_from(content, at, into);
        if count == 0 && !into.is_empty() {
            self.tally.count_end(name, at);
        }
        Ok(count)
    }

    fn there(&mut self, _name: &str) -> Result<bool, Failed> {
        Ok(true)
    }

    fn create_new(&mut self, name: &str) -> Result<(), Failed> {
        self.tally.count_write_fault(name);
        Err(Failed)
    }

    fn create(&mut self, name: &str) -> Result<(), Failed> {
        self.tally.count_write_fault(name);
        Err(Failed)
    }

    fn write(&mut self, name: &str, _bytes: &[u8]) -> Result<usize, Failed> {
        self.tally.count_write_fault(name);
        Err(Failed)
    }
}
