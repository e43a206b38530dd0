//! A folder in which nothing that is there can be lost.
ghost use Rattle.std.specs.Prelude.{◌≡◌, true, OnOk};
ghost use Rattle.outside.specs.Files.{IsFileThere, IsFileMissing};
ghost use Rattle.outside.specs.Answers.{FindAnswer, ReadAnswer, ThereAnswer, CreateAnswer, MakeAnswer, WriteAnswer};

use crate::folder::{Failed, FindFault, Folder};

/// A folder whose files, counts and calls are those of another, but that keeps what is there: its
/// `create` is the other's `create_new`. It takes no memory.
#[derive(Drop)]
pub struct KeptFolder<'a, D: Folder> {
    folder: &'a mut D,
}

impl<'a, D: Folder> KeptFolder<'a, D> {
    pub fn new(folder: &'a mut D) -> Self
        ensures same { result.folder.ghost_name ≡ folder.entry.ghost_name }
        ensures now { result.folder.now ≡ folder.old }
    {
        KeptFolder { folder }
    }
}

impl<'a, D: Folder> Folder for KeptFolder<'a, D> {
    ghost use Rattle.outside.specs.Seen.{kept_seen};

    ghost seen = { λ kept. kept_seen kept.folder.ghost_name (D.seen kept.folder.now) };

    ghost keeping = { true };

    fn keeps(&self) -> bool {
        true
    }

    fn find(&mut self, name: &str) -> Result<u64, FindFault> {
        self.folder.find(name)
    }

    fn read(&mut self, name: &str, at: u64, into: &mut [u8]) -> Result<usize, Failed> {
        self.folder.read(name, at, into)
    }

    fn there(&mut self, name: &str) -> Result<bool, Failed> {
        self.folder.there(name)
    }

    fn create(&mut self, name: &str) -> Result<(), Failed> {
        self.folder.create_new(name)
    }

    fn create_new(&mut self, name: &str) -> Result<(), Failed> {
        self.folder.create_new(name)
    }

    fn write(&mut self, name: &str, bytes: &[u8]) -> Result<usize, Failed> {
        self.folder.write(name, bytes)
    }
}
