//! A folder in memory that grows.
ghost use Rattle.std.specs.Prelude.{◌≡◌, ◌≢◌, ◌-◌, [], ◌++◌, None, Some, Ok, Err, false, length, take, drop, min, unwrap_or, is_some, option_copied, IsSome, OnOk, OnErr, IfOk};
ghost use Rattle.outside.specs.Answers.{FindAnswer, ReadAnswer, ThereAnswer, CreateAnswer, MakeAnswer, WriteAnswer};
ghost use Rattle.outside.specs.Counts.{no_counts, OnlyWrites, with_write_fault};
ghost use Rattle.outside.specs.Files.{Told, with_file, AreOctets, IsFileThere};
ghost use Rattle.outside.specs.Seen.{OnFile};
ghost use Rattle.outside.specs.declared.folder.FindFault.TheVariants.{Failed as FailedCall};
ghost use Rattle.session.specs.Shown.{grown_files, grown_counts, grown_seen, without_file};
ghost use Rattle.session.specs.Names.{IsNameAt};

use outside::{Failed, FindFault, Folder, Tally};
use std::alloc::{AllocError, Global};
use std::collections::BTreeMap;

/// A folder in memory. The content of its files is known, and they grow as they are written to. A call of its trait fails only
/// where memory is refused, if `create_new` is given a name that is there, or if `find` is given one that isn't.
#[derive(Drop)]
pub struct GrowingFolder {
    alloc: Global,
    by_name: BTreeMap<String, Vec<u8>>,
    tally: Tally,
}

impl GrowingFolder {
    /// A folder without files, with all counts 0. It takes no memory.
    pub fn new(alloc: Global) -> Self
        ensures files { grown_files result ≡ (λ _. None) }
        ensures counts { grown_counts result ≡ no_counts }
    {
        GrowingFolder {
            alloc,
            by_name: BTreeMap::new(alloc),
            tally: Tally::new(),
        }
    }

    /// Makes the name's file these bytes, whether or not it is there.
    ///
    /// # Errors
    /// If memory is refused. Then the files are unchanged.
    pub fn put(&mut self, name: &str, bytes: &[u8]) -> Result<(), AllocError>
        ensures put { OnOk result (grown_files self.new
            ≡ with_file (grown_files self.old) name.now bytes.now) }
        ensures kept { OnErr result (grown_files self.new ≡ grown_files self.old) }
        ensures counts { grown_counts self.new ≡ grown_counts self.old }
    {
        let mut content = Vec::with_capacity(self.alloc, bytes.len())?;
        content.extend_from_slice(bytes)?;
        self.set(name, content)
    }

    /// Takes the name away, and returns whether it was there.
    pub fn remove(&mut self, name: &str) -> bool
        ensures there { result ≡ is_some (grown_files self.old name.now) }
        ensures files { grown_files self.new ≡ without_file (grown_files self.old) name.now }
        ensures kept { result ≡ false → grown_files self.new ≡ grown_files self.old }
        ensures counts { grown_counts self.new ≡ grown_counts self.old }
    {
        self.by_name.remove(name).is_some()
    }

    /// The bytes of the file, or `None` if the name isn't there.
    pub fn get(&self, name: &str) -> Option<&[u8]>
        ensures { option_copied result ≡ grown_files self.now name.now }
    {
        match self.by_name.get(name) {
            Some(content) => Some(content.as_slice()),
            None => None,
        }
    }

    /// The name with this number, counted from 0 in the order of their bytes, or `None` if there are no more.
    pub fn name(&self, number: usize) -> Option<&str>
        ensures { IsNameAt (grown_files self.now) number (option_copied result) }
    {
        match self.by_name.keys().nth(number) {
            Some(name) => Some(name.as_str()),
            None => None,
        }
    }

    // Makes the name's file this content.
    fn set(&mut self, name: &str, content: Vec<u8>) -> Result<(), AllocError>
        ensures set { OnOk result (grown_files self.new
            ≡ with_file (grown_files self.old) name.now content.items) }
        ensures kept { OnErr result (grown_files self.new ≡ grown_files self.old) }
        ensures counts { grown_counts self.new ≡ grown_counts self.old }
    {
        let key = String::from_str(self.alloc, name)?;
        self.by_name.insert(key, content)?;
        Ok(())
    }

    // Makes the name hold no bytes. Where memory is refused, that is counted.
    fn empty(&mut self, name: &str) -> Result<(), Failed>
        ensures emptied { OnOk result (grown_files self.new
            ≡ with_file (grown_files self.old) name.now []) }
        ensures kept { OnErr result (grown_files self.new ≡ grown_files self.old) }
        ensures done { OnOk result (grown_counts self.new ≡ grown_counts self.old) }
        ensures counted { OnErr result (grown_counts self.new
            ≡ with_write_fault name.now (grown_counts self.old)) }
        ensures counts { OnlyWrites (grown_counts self.old) (grown_counts self.new) }
    {
        match self.set(name, Vec::new(self.alloc)) {
            Ok(()) => Ok(()),
            Err(_) => {
                self.tally.count_write_fault(name);
                Err(Failed)
            }
        }
    }

    // Adds the bytes to the file.
    fn append(&mut self, name: &str, bytes: &[u8]) -> Result<(), AllocError>
        requires { IsSome (grown_files self.old name.now) }
        ensures appended { OnOk result (grown_files self.new ≡ with_file (grown_files self.old)
            name.now (unwrap_or (grown_files self.old name.now) [] ++ bytes.now)) }
        ensures kept { OnErr result (grown_files self.new ≡ grown_files self.old) }
        ensures counts { grown_counts self.new ≡ grown_counts self.old }
    {
        match self.by_name.get_mut(name) {
            Some(content) => content.extend_from_slice(bytes),
            None => Err(AllocError),
        }
    }
}

impl Folder for GrowingFolder {
    ghost seen = { λ folder. grown_seen folder };

    ghost keeping = { false };

    fn keeps(&self) -> bool {
        false
    }

    fn find(&mut self, name: &str) -> Result<u64, FindFault>
        ensures answer { FindAnswer name.now (grown_seen self.old) (grown_seen self.new) result }
        ensures absent { OnErr result (grown_files self.old name.now ≡ None) }
        ensures never_fails { result ≢ Err FailedCall }
    {
        match self.get(name) {
            Some(content) => Ok(size_of(content)),
            None => {
                self.tally.count_miss(name);
                Err(FindFault::Absent)
            }
        }
    }

    fn read(&mut self, name: &str, at: u64, into: &mut [u8]) -> Result<usize, Failed>
        requires { IsFileThere (Told (grown_files self.old)) name.now }
        ensures answer { ReadAnswer name.now at into.old into.new (grown_seen self.old)
            (grown_seen self.new) result }
        ensures whole { OnFile (grown_seen self.old) name.now
            (λ bytes. result ≡ Ok (min (length into.old) (length bytes - at))) }
    {
        let content = self.get(name).unwrap_or(&[]);
        let count = copy_from(content, at, into);
        self.tally.count_read(name, at, count, into.len());
        Ok(count)
    }

    fn there(&mut self, name: &str) -> Result<bool, Failed>
        ensures answer { ThereAnswer name.now (grown_seen self.old) (grown_seen self.new) result }
        ensures told { result ≡ Ok (is_some (grown_files self.old name.now)) }
    {
        Ok(self.get(name).is_some())
    }

    fn create(&mut self, name: &str) -> Result<(), Failed>
        ensures answer { CreateAnswer name.now (grown_seen self.old) (grown_seen self.new)
            result }
    {
        self.empty(name)
    }

    fn create_new(&mut self, name: &str) -> Result<(), Failed>
        ensures answer { MakeAnswer name.now (grown_seen self.old) (grown_seen self.new) result }
    {
        if self.get(name).is_some() {
            self.tally.count_write_fault(name);
            return Err(Failed);
        }
        self.empty(name)
    }

    fn write(&mut self, name: &str, bytes: &[u8]) -> Result<usize, Failed>
        requires { IsFileThere (Told (grown_files self.old)) name.now }
        ensures answer { WriteAnswer name.now bytes.now (grown_seen self.old)
            (grown_seen self.new) result }
        ensures whole { IfOk result (λ count. count ≡ length bytes.now) }
    {
        match self.append(name, bytes) {
            Ok(()) => Ok(bytes.len()),
            Err(_) => {
                self.tally.count_write_fault(name);
                Err(Failed)
            }
        }
    }
}

// The number of bytes.
fn size_of(bytes: &[u8]) -> u64
    ensures size { result ≡ length bytes.now }
    // The type says that they are bytes.
    ensures octets { AreOctets bytes.now }
{
    bytes.len() as u64
}

// Copies the bytes from the offset `at` on, as many as there are and fit, and returns how many.
fn copy_from(content: &[u8], at: u64, into: &mut [u8]) -> usize
    ensures count { result ≡ min (length into.old) (length content.now - at) }
    ensures front { take result into.new ≡ take result (drop at content.now) }
    ensures rest { drop result into.new ≡ drop result into.old }
{
    if at >= content.len() as u64 {
        return 0;
    }
    let rest = &content[at as usize..];
    let count = rest.len().min(into.len());
    into[..count].copy_from_slice(&rest[..count]);
    count
}
