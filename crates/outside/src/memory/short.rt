//! A folder that reports greater lengths than it has bytes, for tests.
ghost use Rattle.std.specs.Prelude.{◌≡◌, ◌-◌, ◌<◌, Ok, false, true, OnOk, OnErr, is_err, is_some, option_copied};
ghost use Rattle.outside.specs.Files.{Told, untold_files, with_empty_file, with_appended_bytes, IsFileThere};
ghost use Rattle.outside.specs.Memory.{contents_of, mem_counts};
ghost use Rattle.outside.specs.ShortFolders.{short_counts, create_missing_fails, IsCreated, ShortFinds, ShortReads, ShortAsks, ShortCreates, ShortMakes, ShortWrites};
ghost use Rattle.outside.specs.Counts.{with_write_fault, OnlyWrites, HappenedTo};
ghost use Rattle.outside.specs.Answers.{FindAnswer, ReadAnswer, ThereAnswer, CreateAnswer, MakeAnswer, WriteAnswer};

use crate::folder::{Failed, FindFault, Folder};
use crate::memory::folder::MemFolder;

/// A folder over one in memory. The content of its files isn't known, and they are shorter than
/// `find` says, as if another program cut them off while they are read. Its calls are those of the
/// folder inside, with three exceptions: `find` returns `extra` bytes more than there are, or
/// `u64::MAX` if that is less; `read` returns no byte of a name that isn't inside; and `write`
/// first creates such a name inside, and fails if that fails. Its counts are those of the folder
/// inside, in which a read of a name that isn't there counts as one at an end.
#[derive(Drop)]
pub struct ShortFolder {
    inner: MemFolder,
    extra: u64,
}

impl ShortFolder {
    ghost use Rattle.outside.specs.Memory.{contents_of};

    /// A folder over this one, whose files seem `extra` bytes longer. Its counts begin with the
    /// counts of this one. It takes no memory.
    pub fn new(inner: MemFolder, extra: u64) -> Self
        ensures inner { result.inner ≡ inner }
        ensures extra { result.extra ≡ extra }
        ensures counts { short_counts result ≡ mem_counts inner }
    {
        ShortFolder { inner, extra }
    }

    /// The bytes of a file of the folder inside, or `None` if the name isn't there.
    pub fn get(&self, name: &str) -> Option<&[u8]>
        ensures { option_copied result ≡ contents_of self.now.inner name.now }
    {
        self.inner.get(name)
    }
}

/// Creates a file of no bytes if the name isn't there, so that bytes can be appended to it.
fn create_missing(folder: &mut MemFolder, name: &str) -> Result<(), Failed>
    ensures fails { is_err result ≡ create_missing_fails folder.old name.now }
    ensures there { OnOk result (IsFileThere (Told (contents_of folder.new)) name.now) }
    ensures made { OnOk result (IsCreated folder.old folder.new name.now) }
    ensures stays { is_some (contents_of folder.old name.now) ≡ true → folder.new ≡ folder.old }
    ensures failed { OnErr result (HappenedTo name.now (mem_counts folder.old).write_faults
        (mem_counts folder.new).write_faults) }
    ensures done { OnOk result (mem_counts folder.new ≡ mem_counts folder.old) }
    ensures counts { OnlyWrites (mem_counts folder.old) (mem_counts folder.new) }
    ensures failed_counts { OnErr result
        (mem_counts folder.new ≡ with_write_fault name.now (mem_counts folder.old)) }
{
    if folder.get(name).is_some() {
        return Ok(());
    }
    folder.create(name)
}

impl Folder for ShortFolder {
    ghost use Rattle.outside.specs.Memory.{contents_of};
    ghost use Rattle.outside.specs.ShortFolders.{short_seen};

    ghost seen = { λ folder. short_seen folder };

    ghost keeping = { false };

    fn keeps(&self) -> bool {
        false
    }

    fn find(&mut self, name: &str) -> Result<u64, FindFault>
        ensures answer { FindAnswer name.now (short_seen self.old) (short_seen self.new) result }
        ensures own { ShortFinds name.now self.old self.new result }
    {
        let size = self.inner.find(name)?;
        Ok(size.saturating_add(self.extra))
    }

    fn read(&mut self, name: &str, at: u64, into: &mut [u8]) -> Result<usize, Failed>
        requires { IsFileThere untold_files name.now }
        ensures answer { ReadAnswer name.now at into.old into.new (short_seen self.old)
            (short_seen self.new) result }
        ensures own { ShortReads name.now at into.old into.new self.old self.new result }
    {
        if self.inner.get(name).is_none() {
            self.inner.tally.count_read(name, at, 0, into.len());
            return Ok(0);
        }
        self.inner.read(name, at, into)
    }

    fn there(&mut self, name: &str) -> Result<bool, Failed>
        ensures answer { ThereAnswer name.now (short_seen self.old) (short_seen self.new) result }
        ensures own { ShortAsks name.now self.old self.new result }
    {
        self.inner.there(name)
    }

    #[tactic(auto, using(crate::proofs::FilesLemmas::untold_created))]
    fn create(&mut self, name: &str) -> Result<(), Failed>
        ensures answer { CreateAnswer name.now (short_seen self.old) (short_seen self.new) result }
        ensures own { ShortCreates name.now self.old self.new result }
    {
        self.inner.create(name)
    }

    #[tactic(auto, using(crate::proofs::FilesLemmas::untold_made))]
    fn create_new(&mut self, name: &str) -> Result<(), Failed>
        ensures answer { MakeAnswer name.now (short_seen self.old) (short_seen self.new) result }
        ensures own { ShortMakes name.now self.old self.new result }
    {
        self.inner.create_new(name)
    }

    #[tactic(auto, unfolding(crate::specs::Files::with_appended_bytes))]
    fn write(&mut self, name: &str, bytes: &[u8]) -> Result<usize, Failed>
        requires { IsFileThere untold_files name.now }
        ensures answer { WriteAnswer name.now bytes.now (short_seen self.old) (short_seen self.new)
            result }
        ensures own { ShortWrites name.now bytes.now self.old self.new result }
    {
        create_missing(&mut self.inner, name)?;
        self.inner.write(name, bytes)
    }
}
