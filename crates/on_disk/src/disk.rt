//! Real files.
ghost use Rattle.std.specs.Prelude.{◌≡◌, ℕ, ◌<◌, ◌≤◌, List, length, take, drop, IfOk, OnOk, OnErr, IsErrOf, if◌then◌else◌, ◌==◌, ◌&&◌, nat_lt, ◌⊎◌, ◌-◌, Some, IfSome, IsTrue, true, false, ◌↔◌, min, IsOk, IsOkAnd, IsErrAnd};
ghost use Rattle.std.specs.IoError.{error_kind};
ghost use Rattle.on_disk.specs.declared.system.Purpose.{Purpose};
ghost use Rattle.std.specs.declared.io.ErrorKind.{ErrorKind};
ghost use Rattle.std.specs.Io.KnownBytes.{Keeps, WriteAppends};
ghost use Rattle.on_disk.specs.Names.{touched_in, is_touched};
ghost use Rattle.on_disk.specs.NotedFiles.{is_noted};
ghost use Rattle.on_disk.specs.RealFiles.{OnlyFound, OnlyWrote, HasNoBytes};
ghost use Rattle.outside.specs.Files.{untouched_files, with_empty_file, with_new_file, with_appended_bytes, FailsToCreate, FailsToMake, Holds, IsFileThere, IsFileMissing, AreOctets};
ghost use Rattle.outside.specs.Counts.{no_counts, with_miss, with_end, with_read_fault, with_write_fault, OnlyReads, OnlyWrites, NothingFailed, HappenedTo, EndedAt};
ghost use Rattle.outside.specs.Answers.{FindAnswer, ReadAnswer, ThereAnswer, CreateAnswer, MakeAnswer, WriteAnswer};

use crate::noted::{CreateAction, NotedFiles, create_action_of};
use crate::system::{
    Described, FileFacts, Looked, Opened, is_open, look, open_to_append, open_to_create,
    open_to_make, stands,
};
use crate::touched::TouchedNames;
use outside::{Failed, FindFault, Folder, Tally};
use std::alloc::Global;
use std::io;
use std::rt::Files;

/// A folder of real files, over a runtime that reaches them. The content of its files isn't known.
///
/// What the system does isn't proved: that the files behave as the trait says. They do as long as
/// nobody else changes them and no two names lead to one file. `create` guards against two such
/// names: it fails if its name leads to a file that this folder found before, by device and inode,
/// so no file is emptied that is still to be read. (With a runtime that gives all files one device
/// and inode, every `create` after a `find` fails.)
///
/// It keeps two files open, the one last found or read and the one last created, and reopens
/// others. It also keeps the names that it was asked to create, which contracts see, and writes to
/// no others. A call that is refused memory fails.
#[derive(Drop)]
pub struct DiskFolder<'a, R: Files> {
    rt: &'a R,
    alloc: Global,
    tally: Tally,
    touched: TouchedNames,
    noted: NotedFiles,
    found: Option<Opened<R::File>>,
    created: Option<Opened<R::File>>,
}

impl<'a, R: Files> DiskFolder<'a, R> {
    ghost use Rattle.on_disk.specs.RealFiles.{disk_counts, disk_files, found_name, found_file, created_name, created_bytes, EndsAt, ReadsWhole, ReadsOpen, AppendsOpen, LeavesOthers, FoundIsNoted, FoundIsRegular, CreatedIsNew, CreatedIsNotNoted, CreatedIsEmpty, StayNoted};

    /// A folder with all counts 0 that has touched no name. It takes no memory.
    pub fn new(rt: &'a R, alloc: Global) -> Self
        ensures counts { disk_counts result ≡ no_counts }
        ensures untouched { disk_files result ≡ untouched_files }
    {
        DiskFolder {
            rt,
            alloc,
            tally: Tally::new(),
            touched: TouchedNames::new(alloc),
            noted: NotedFiles::new(),
            found: None,
            created: None,
        }
    }

    // Opens a regular file, notes it, keeps it open, and returns its length in bytes.
    fn locate(&mut self, name: &str) -> Result<u64, FindFault>
        ensures tally { disk_counts self.new ≡ disk_counts self.old }
        ensures touched { self.new.touched ≡ self.old.touched }
        ensures opened { OnOk result (found_name self.new ≡ Some name.now) }
        ensures noted { OnOk result (FoundIsNoted self.new) }
        ensures regular { OnOk result (FoundIsRegular self.new) }
        ensures stay_noted { StayNoted self.old self.new }
        ensures length { IfOk result (λ n. IfSome (found_file self.new)
            (λ file. EndsAt R.File.stream_position R.File.stream_bytes file n)) }
        ensures created { self.new.created ≡ self.old.created }
    {
        let mut file = open_regular(self.rt, name)?;
        let length = file.length()?;
        let name = String::from_str(self.alloc, name)?;
        self.keep(Opened::of(name, file))?;
        Ok(length)
    }

    // Notes a file that was found, and keeps it open for reading. Fails for a new file once 65
    // others are noted.
    fn keep(&mut self, opened: Opened<R::File>) -> Result<(), FindFault>
        ensures tally { disk_counts self.new ≡ disk_counts self.old }
        ensures touched { self.new.touched ≡ self.old.touched }
        ensures opened { OnOk result (self.new.found ≡ Some opened) }
        ensures noted { OnOk result (FoundIsNoted self.new) }
        ensures stay_noted { StayNoted self.old self.new }
        ensures created { self.new.created ≡ self.old.created }
    {
        if !self.noted.note(opened.id()) {
            return Err(FindFault::Failed);
        }
        self.found = Some(opened);
        Ok(())
    }

    // Makes the file of this name the one that is kept open for reading.
    fn open_to_read(&mut self, name: &str) -> Result<(), FindFault>
        ensures tally { disk_counts self.new ≡ disk_counts self.old }
        ensures touched { self.new.touched ≡ self.old.touched }
        ensures opened { OnOk result (found_name self.new ≡ Some name.now) }
        ensures same { found_name self.old ≡ Some name.now → self.new.found ≡ self.old.found }
        ensures noted { self.new.noted ≡ self.old.noted }
        ensures created { self.new.created ≡ self.old.created }
    {
        if is_open(&self.found, name) {
            return Ok(());
        }
        let file = open_regular(self.rt, name)?;
        let name = String::from_str(self.alloc, name)?;
        self.found = Some(Opened::of(name, file));
        Ok(())
    }

    // Reads from the offset `at` on, as much as there is and fits.
    fn read_there(&mut self, name: &str, at: u64, into: &mut [u8]) -> Result<usize, Failed>
        ensures bound { IfOk result (λ k. k ≤ length into.old) }
        ensures rest { IfOk result (λ k. drop k into.new ≡ drop k into.old) }
        ensures aside { OnlyFound self.old self.new }
        ensures opened { OnOk result (found_name self.new ≡ Some name.now) }
        ensures whole { ReadsWhole R.File.stream_position R.File.stream_bytes self.old name.now at
            (length into.old) result }
        ensures open_bytes { ReadsOpen R.File.remaining R.File.stream_position R.File.stream_bytes
            self.old name.now at into.new result }
    {
        self.open_to_read(name)?;
        match &mut self.found {
            Some(opened) => Ok(opened.read_part(at, into)?),
            None => Err(Failed),
        }
    }

    // Opens the file of this name, empties it if it is a regular one, and keeps it open; fails if
    // this folder found it before. The name must be noted first, since the system may make a file
    // and still fail.
    fn make_empty(&mut self, name: &str) -> Result<(), Failed>
        requires noted_first { IsTrue (is_touched (touched_in self.now.touched name.now)) }
        ensures tally { disk_counts self.new ≡ disk_counts self.old }
        ensures touched { self.new.touched ≡ self.old.touched }
        ensures opened { OnOk result (created_name self.new ≡ Some name.now) }
        ensures unfound { OnOk result (CreatedIsNotNoted self.new) }
        ensures empty { OnOk result (CreatedIsEmpty self.new) }
        ensures found { self.new.found ≡ self.old.found }
        ensures noted { self.new.noted ≡ self.old.noted }
    {
        let kept = String::from_str(self.alloc, name)?;
        let file = open_emptied(self.rt, &self.noted, name)?;
        self.created = Some(Opened::of(kept, file));
        Ok(())
    }

    // Notes the name as touched, opens its file, empties it, and keeps it open.
    fn touch_and_empty(&mut self, name: &str) -> Result<(), Failed>
        ensures tally { disk_counts self.new ≡ disk_counts self.old }
        ensures emptied { OnOk result (disk_files self.new
            ≡ with_empty_file (disk_files self.old) name.now) }
        ensures kept { OnErr result (FailsToCreate name.now (disk_files self.old)
            (disk_files self.new)) }
        ensures opened { OnOk result (created_name self.new ≡ Some name.now) }
        ensures unfound { OnOk result (CreatedIsNotNoted self.new) }
        ensures empty { OnOk result (CreatedIsEmpty self.new) }
        ensures found { self.new.found ≡ self.old.found }
        ensures noted { self.new.noted ≡ self.old.noted }
    {
        self.touched.add_created(self.alloc, name)?;
        self.make_empty(name)
    }

    // Makes a file of this name and keeps it open. The name must be noted first, as for
    // `make_empty`.
    fn make_new(&mut self, name: &str) -> Result<(), Failed>
        requires noted_first { IsTrue (is_touched (touched_in self.now.touched name.now)) }
        ensures tally { disk_counts self.new ≡ disk_counts self.old }
        ensures touched { self.new.touched ≡ self.old.touched }
        ensures opened { OnOk result (created_name self.new ≡ Some name.now) }
        ensures fresh { OnOk result (CreatedIsNew self.new) }
        ensures found { self.new.found ≡ self.old.found }
        ensures noted { self.new.noted ≡ self.old.noted }
    {
        let kept = String::from_str(self.alloc, name)?;
        let file = open_to_make(self.rt, name)?.describe()?;
        self.created = Some(Opened::of(kept, file));
        Ok(())
    }

    // Notes the name as one that is to be made, makes its file, and keeps it open.
    fn touch_and_make(&mut self, name: &str) -> Result<(), Failed>
        ensures tally { disk_counts self.new ≡ disk_counts self.old }
        ensures made { OnOk result (disk_files self.new
            ≡ with_new_file (disk_files self.old) name.now) }
        ensures kept { OnErr result (FailsToMake name.now (disk_files self.old)
            (disk_files self.new)) }
        ensures opened { OnOk result (created_name self.new ≡ Some name.now) }
        ensures fresh { OnOk result (CreatedIsNew self.new) }
        ensures found { self.new.found ≡ self.old.found }
        ensures noted { self.new.noted ≡ self.old.noted }
    {
        self.touched.add_made(self.alloc, name)?;
        self.make_new(name)
    }

    // Whether the file of this name may be written to: if it was to be created, or if it was made
    // and is still open. A file that was made isn't opened again, since another may have its name
    // by then.
    fn may_write(&self, name: &str) -> bool
        ensures touched { IsTrue result
            → IsTrue (is_touched (touched_in self.now.touched name.now)) }
    {
        self.touched.was_created(name)
            || self.touched.was_made(name) && is_open(&self.created, name)
    }

    // Appends a prefix of the bytes to the file of this name.
    fn append(&mut self, name: &str, bytes: &[u8]) -> Result<usize, Failed>
        ensures bound { IfOk result (λ k. k ≤ length bytes.now) }
        ensures some { IfOk result (λ k. 0 < length bytes.now → 0 < k) }
        ensures rest { OnlyWrote self.old self.new }
        ensures kept { OnErr result (Keeps (created_bytes R.File.contents self.old)
            (created_bytes R.File.contents self.new)) }
        ensures appended { AppendsOpen R.File.contents self.old self.new name.now bytes.now result }
        ensures aside { LeavesOthers self.old self.new name.now }
    {
        if !is_open(&self.created, name) {
            return append_anew(self.rt, name, bytes);
        }
        match &mut self.created {
            Some(opened) => opened.append(bytes),
            None => Err(Failed),
        }
    }
}

// Opens the file of this name for one write, which appends to it.
fn append_anew<R: Files>(rt: &R, name: &str, bytes: &[u8]) -> Result<usize, Failed>
    ensures bound { IfOk result (λ k. k ≤ length bytes.now) }
    ensures some { IfOk result (λ k. 0 < length bytes.now → 0 < k) }
{
    open_to_append(rt, name)?.append(bytes)
}

// Opens the file of this name for writing, and empties it if it is a regular one; fails if it was
// found before. A file that is empty is left as it is: some file systems write a truncated file to
// the disk when it is closed.
fn open_emptied<'n, R: Files>(
    rt: &R,
    noted: &NotedFiles,
    name: &'n str,
) -> Result<Described<'n, R::File>, Failed>
    ensures named { IfOk result (λ file. file.name.now ≡ name.now) }
    ensures purpose { IfOk result (λ file. file.purpose ≡ Purpose.Creating) }
    ensures unfound { IfOk result (λ file. is_noted noted.now file.facts.id ≡ false) }
    ensures empty { IfOk result (λ file. HasNoBytes file.facts) }
{
    let file = open_to_create(rt, name)?.describe()?;
    match create_action_of(noted, file.facts()) {
        CreateAction::Refused => Err(Failed),
        CreateAction::Emptied => Ok(file.empty(noted)?),
        CreateAction::Kept => Ok(file),
    }
}

// Opens a regular file for reading. The kind of the file is looked at first, since opening a pipe
// may block.
fn open_regular<'n, R: Files>(rt: &R, name: &'n str) -> Result<Described<'n, R::File>, FindFault>
    ensures named { IfOk result (λ file. file.name.now ≡ name.now) }
    ensures purpose { IfOk result (λ file. file.purpose ≡ Purpose.Reading) }
    ensures regular { IfOk result (λ file. IsTrue file.facts.is_regular) }
{
    let looked = only_regular(look(rt, name))?;
    let file = looked.open_to_read(rt)?.describe()?;
    if !file.facts().is_regular() {
        return Err(FindFault::Failed);
    }
    Ok(file)
}

// How it ends if the system says this of a file that is to be found: it is absent if the name isn't
// found, and a fault if it is anything but a regular file.
fn only_regular(answer: io::Result<Looked<'_>>) -> Result<Looked<'_>, FindFault>
    ensures same { IfOk result (λ looked. answer.entry ≡ Ok looked) }
    ensures regular { IsOk result
        ↔ IsOkAnd answer.entry (λ looked. IsTrue looked.facts.is_regular) }
    ensures absent { IsErrOf result FindFault.Absent
        ↔ IsErrAnd answer.entry (λ error. error_kind error ≡ ErrorKind.NotFound) }
{
    let looked = answer?;
    if looked.facts().is_regular() {
        Ok(looked)
    } else {
        Err(FindFault::Failed)
    }
}

impl<'a, R: Files> Folder for DiskFolder<'a, R> {
    ghost use Rattle.on_disk.specs.RealFiles.{disk_seen, disk_counts, disk_files, found_name, found_file, created_name, created_bytes, EndsAt, ReadsWhole, ReadsOpen, AppendsOpen, LeavesOthers, FoundIsNoted, FoundIsRegular, CreatedIsNew, CreatedIsNotNoted, CreatedIsEmpty, StayNoted};

    ghost seen = { λ folder. disk_seen folder };

    ghost keeping = { false };

    fn keeps(&self) -> bool {
        false
    }

    /// The length of a regular file in bytes. The file is kept open for `read`.
    ///
    /// # Errors
    /// `Absent` if the system says that the name isn't found, and `Failed` for every other error.
    /// Anything but a regular file, such as a directory or a pipe, is a fault, and nothing blocks
    /// on it. A file that this folder finds after 65 others is a fault too.
    fn find(&mut self, name: &str) -> Result<u64, FindFault>
        ensures answer { FindAnswer name.now (disk_seen self.old) (disk_seen self.new) result }
        // What the library knows of the open file.
        ensures opened { OnOk result (found_name self.new ≡ Some name.now) }
        ensures length { IfOk result (λ n. IfSome (found_file self.new)
            (λ file. EndsAt R.File.stream_position R.File.stream_bytes file n)) }
        // It is a regular file that was opened to be read. Its device and inode are noted, and stay
        // noted.
        ensures regular { OnOk result (FoundIsRegular self.new) }
        ensures noted { OnOk result (FoundIsNoted self.new) }
        ensures stay_noted { StayNoted self.old self.new }
        ensures created_stays { self.new.created ≡ self.old.created }
        ensures absent_counts { IsErrOf result FindFault.Absent
            → disk_counts self.new ≡ with_miss name.now (disk_counts self.old) }
        ensures failed_counts { IsErrOf result FindFault.Failed
            → disk_counts self.new ≡ with_read_fault name.now (disk_counts self.old) }
    {
        match self.locate(name) {
            Ok(length) => Ok(length),
            Err(FindFault::Absent) => {
                self.tally.count_miss(name);
                Err(FindFault::Absent)
            }
            Err(FindFault::Failed) => {
                self.tally.count_read_fault(name);
                Err(FindFault::Failed)
            }
        }
    }

    /// Reads bytes of the file from the offset `at` on, as many as there are and fit.
    ///
    /// # Errors
    /// If the system gives an error, or if the file is cut short while it is read.
    fn read(&mut self, name: &str, at: u64, into: &mut [u8]) -> Result<usize, Failed>
        ensures answer { ReadAnswer name.now at into.old into.new (disk_seen self.old)
            (disk_seen self.new) result }
        // What the library knows of the open file: its own bytes were read, as many as there are
        // and fit.
        ensures opened { OnOk result (found_name self.new ≡ Some name.now) }
        ensures whole { ReadsWhole R.File.stream_position R.File.stream_bytes self.old name.now at
            (length into.old) result }
        ensures open_bytes { ReadsOpen R.File.remaining R.File.stream_position R.File.stream_bytes
            self.old name.now at into.new result }
        ensures noted_stay { self.new.noted ≡ self.old.noted }
        ensures created_stays { self.new.created ≡ self.old.created }
        ensures read_counts { IfOk result
            (λ k. disk_counts self.new ≡ (if k == 0 && nat_lt 0 (length into.old)
            then with_end name.now at (disk_counts self.old) else disk_counts self.old)) }
        ensures failed_counts { OnErr result
            (disk_counts self.new ≡ with_read_fault name.now (disk_counts self.old)) }
    {
        let Ok(count) = self.read_there(name, at, into) else {
            self.tally.count_read_fault(name);
            return Err(Failed);
        };
        self.tally.count_read(name, at, count, into.len());
        Ok(count)
    }

    /// Whether anything has the name: a file, a directory, a device, or a link, wherever it leads.
    ///
    /// # Errors
    /// If the system gives another error than that the name isn't found.
    fn there(&mut self, name: &str) -> Result<bool, Failed>
        ensures answer { ThereAnswer name.now (disk_seen self.old) (disk_seen self.new) result }
        ensures found_stays { self.new.found ≡ self.old.found }
        ensures created_stays { self.new.created ≡ self.old.created }
        ensures noted_stay { self.new.noted ≡ self.old.noted }
        ensures failed_counts { OnErr result
            (disk_counts self.new ≡ with_write_fault name.now (disk_counts self.old)) }
    {
        let Ok(there) = stands(self.rt, name) else {
            self.tally.count_write_fault(name);
            return Err(Failed);
        };
        Ok(there)
    }

    /// Makes the name a file of no bytes. Anything but a regular file is opened and left as it is.
    ///
    /// # Errors
    /// If the system gives an error, or if the name, whatever it is, leads to a file that this
    /// folder found. That file is left as it is.
    #[tactic(auto, unfolding(outside::specs::Files::with_empty_file))]
    fn create(&mut self, name: &str) -> Result<(), Failed>
        ensures answer { CreateAnswer name.now (disk_seen self.old) (disk_seen self.new) result }
        ensures fresh { false ≡ true
            → OnOk result (IsFileMissing (disk_seen self.old).files name.now) }
        ensures opened { OnOk result (created_name self.new ≡ Some name.now) }
        // No file that was found has its device and inode, and if it is a regular one, it has no
        // bytes.
        ensures unfound { OnOk result (CreatedIsNotNoted self.new) }
        ensures empty { OnOk result (CreatedIsEmpty self.new) }
        ensures found_stays { self.new.found ≡ self.old.found }
        ensures noted_stay { self.new.noted ≡ self.old.noted }
        ensures failed_counts { OnErr result
            (disk_counts self.new ≡ with_write_fault name.now (disk_counts self.old)) }
    {
        if self.touch_and_empty(name).is_err() {
            self.tally.count_write_fault(name);
            return Err(Failed);
        }
        Ok(())
    }

    /// Makes a file of no bytes, in one step with the look whether the name is there: nothing that is
    /// there is opened, no link is followed, and of two programs that make one name only one does.
    ///
    /// # Errors
    /// If anything has the name, or if the system gives another error.
    #[tactic(auto, unfolding(outside::specs::Files::with_new_file))]
    fn create_new(&mut self, name: &str) -> Result<(), Failed>
        ensures answer { MakeAnswer name.now (disk_seen self.old) (disk_seen self.new) result }
        ensures opened { OnOk result (created_name self.new ≡ Some name.now) }
        ensures fresh { OnOk result (CreatedIsNew self.new) }
        ensures found_stays { self.new.found ≡ self.old.found }
        ensures noted_stay { self.new.noted ≡ self.old.noted }
        ensures failed_counts { OnErr result
            (disk_counts self.new ≡ with_write_fault name.now (disk_counts self.old)) }
    {
        if self.touch_and_make(name).is_err() {
            self.tally.count_write_fault(name);
            return Err(Failed);
        }
        Ok(())
    }

    /// Appends a prefix of the bytes to the file, which must be there.
    ///
    /// # Errors
    /// If no call was made to create the name, or only to make it and the file isn't open, if the system gives an error, or if it takes none of
    /// the bytes though there are some.
    #[tactic(auto, unfolding(outside::specs::Files::with_appended_bytes))]
    fn write(&mut self, name: &str, bytes: &[u8]) -> Result<usize, Failed>
        ensures answer { WriteAnswer name.now bytes.now (disk_seen self.old) (disk_seen self.new)
            result }
        // What the library knows of the open file: exactly these bytes were appended to it, and
        // none by a call that fails.
        ensures appended { AppendsOpen R.File.contents self.old self.new name.now bytes.now result }
        ensures aside { LeavesOthers self.old self.new name.now }
        ensures unwritten { OnErr result (Keeps (created_bytes R.File.contents self.old)
            (created_bytes R.File.contents self.new)) }
        ensures opened { created_name self.new ≡ created_name self.old }
        ensures found_stays { self.new.found ≡ self.old.found }
        ensures noted_stay { self.new.noted ≡ self.old.noted }
        ensures failed_counts { OnErr result
            (disk_counts self.new ≡ with_write_fault name.now (disk_counts self.old)) }
    {
        if !self.may_write(name) {
            self.tally.count_write_fault(name);
            return Err(Failed);
        }
        let Ok(count) = self.append(name, bytes) else {
            self.tally.count_write_fault(name);
            return Err(Failed);
        };
        Ok(count)
    }
}
