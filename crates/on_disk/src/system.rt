//! What the system is asked about files, and what it says of them.
//!
//! The library has no clause that ties a file to the name by which it was opened, metadata to their
//! file, or the numbers of a file to its metadata. So only tests show that `look`, `stands`, `open`,
//! `describe`, `empty` and `FileId::of` ask for what they should. All other code gets files and
//! facts from these, and can't make any.
ghost use Rattle.std.specs.Prelude.{◌≡◌, ◌↔◌, ◌<◌, ◌≤◌, length, pos, IfOk, IsErrAnd, IsOk, IsOkAnd, IsTrue, true, false};
ghost use Rattle.std.specs.IoError.{error_kind};
ghost use Rattle.std.specs.declared.io.ErrorKind.{ErrorKind};
ghost use Rattle.std.specs.Io.Seek.{SeekMoves};
ghost use Rattle.std.specs.Io.KnownBytes.{Keeps};
ghost use Rattle.std.specs.Fs.{metadata_len, file_type, IsFile};
ghost use Rattle.on_disk.specs.System.{options_for};
ghost use Rattle.on_disk.specs.NotedFiles.{is_noted};

use crate::noted::NotedFiles;
use crate::reading::length_of;
use crate::writing::write_some;
use outside::Failed;
use std::fs::{Metadata, OpenFile, OpenOptions};
use std::io::{ErrorKind, Seek, SeekFrom, Write};
use std::os::unix::fs::MetadataExt;
use std::rt::Files;
use std::{fs, io};

mod opened;

pub use opened::{Opened, is_open};

/// What distinguishes a file from every other, whatever its names.
#[derive(Clone, Copy)]
pub struct FileId {
    device: u64,
    inode: u64,
}

impl FileId {
    fn of(metadata: &Metadata) -> Self {
        FileId {
            device: metadata.dev(),
            inode: metadata.ino(),
        }
    }

    /// The device and the inode number.
    pub fn numbers(&self) -> (u64, u64)
        ensures device { result.0 ≡ self.now.device }
        ensures inode { result.1 ≡ self.now.inode }
    {
        (self.device, self.inode)
    }
}

/// What the system says of a file.
#[derive(Clone, Copy)]
pub struct FileFacts {
    id: FileId,
    is_regular: bool,
    length: u64,
}

impl FileFacts {
    fn of(metadata: &Metadata) -> Self
        ensures regular { IsTrue result.is_regular ↔ IsFile (file_type metadata.now) }
        ensures length { result.length ≡ metadata_len metadata.now }
    {
        FileFacts {
            id: FileId::of(metadata),
            is_regular: metadata.is_file(),
            length: metadata.len(),
        }
    }

    pub fn id(&self) -> FileId
        ensures { result ≡ self.now.id }
    {
        self.id
    }

    /// Whether it is a regular file.
    pub fn is_regular(&self) -> bool
        ensures { result ≡ self.now.is_regular }
    {
        self.is_regular
    }

    /// The length of a regular file in bytes.
    pub fn length(&self) -> u64
        ensures { result ≡ self.now.length }
    {
        self.length
    }
}

/// What a file is opened for.
#[derive(Clone, Copy, PartialEq, Eq)]
pub enum Purpose {
    /// To be read. It must be there.
    Reading,
    /// To be made, if it isn't there, and appended to.
    Creating,
    /// To be made, where nothing is there, and appended to.
    Making,
    /// To be appended to. It must be there.
    Appending,
}

fn options_of(purpose: Purpose) -> OpenOptions
    ensures { result ≡ options_for purpose }
{
    let mut options = OpenOptions::new();
    match purpose {
        Purpose::Reading => options.read(true),
        Purpose::Creating => options.append(true).create(true),
        Purpose::Making => options.append(true).create_new(true),
        Purpose::Appending => options.append(true),
    };
    options
}

/// A name, and what the system said of its file.
#[derive(Clone, Copy)]
pub struct Looked<'n> {
    name: &'n str,
    facts: FileFacts,
}

/// A file that is open, with the name and the purpose that the system got.
#[derive(Drop)]
pub struct Asked<'n, F> {
    file: F,
    name: &'n str,
    purpose: Purpose,
}

/// The same, with what the system said of the file once it was open.
#[derive(Drop)]
pub struct Described<'n, F> {
    file: F,
    name: &'n str,
    purpose: Purpose,
    facts: FileFacts,
}

/// What the system says of the file of this name, which isn't opened.
///
/// # Errors
/// If the system gives an error.
pub fn look<'n, R: Files>(rt: &R, name: &'n str) -> io::Result<Looked<'n>>
    ensures { IfOk result (λ looked. looked.name.now ≡ name.now) }
{
    let metadata = fs::metadata(rt, name)?;
    Ok(Looked {
        name,
        facts: FileFacts::of(&metadata),
    })
}

// Opens the file of this name.
fn open<'n, R: Files>(rt: &R, purpose: Purpose, name: &'n str) -> io::Result<Asked<'n, R::File>>
    ensures named { IfOk result (λ asked. asked.name.now ≡ name.now) }
    ensures purpose { IfOk result (λ asked. asked.purpose ≡ purpose) }
{
    let file = options_of(purpose).open(rt, name)?;
    Ok(Asked {
        file,
        name,
        purpose,
    })
}

/// Opens the file of this name to append to it, and makes it if it isn't there.
///
/// # Errors
/// If the system gives an error.
pub fn open_to_create<'n, R: Files>(rt: &R, name: &'n str) -> io::Result<Asked<'n, R::File>>
    ensures named { IfOk result (λ asked. asked.name.now ≡ name.now) }
    ensures purpose { IfOk result (λ asked. asked.purpose ≡ Purpose.Creating) }
{
    open(rt, Purpose::Creating, name)
}

/// Makes a file of this name and opens it to append to it. The system makes it or fails, in one
/// step: it follows no link, and empties nothing.
///
/// # Errors
/// If anything has this name, or the system gives another error.
pub fn open_to_make<'n, R: Files>(rt: &R, name: &'n str) -> io::Result<Asked<'n, R::File>>
    ensures named { IfOk result (λ asked. asked.name.now ≡ name.now) }
    ensures purpose { IfOk result (λ asked. asked.purpose ≡ Purpose.Making) }
{
    open(rt, Purpose::Making, name)
}

/// Whether anything has this name, be it a link that leads nowhere, a directory or a device. A link
/// isn't followed.
///
/// # Errors
/// If the system gives another error than that the name isn't found.
pub fn stands<R: Files>(rt: &R, name: &str) -> Result<bool, Failed> {
    found_of(fs::symlink_metadata(rt, name))
}

// How it ends if the system says this of a name that is asked for.
fn found_of(answer: io::Result<Metadata>) -> Result<bool, Failed>
    ensures there { IsOkAnd result (λ is. IsTrue is) ↔ IsOk answer }
    ensures absent { IsOkAnd result (λ is. is ≡ false)
        ↔ IsErrAnd answer (λ error. error_kind error ≡ ErrorKind.NotFound) }
{
    match answer {
        Ok(_) => Ok(true),
        Err(error) if error.kind() == ErrorKind::NotFound => Ok(false),
        Err(_) => Err(Failed),
    }
}

/// Opens the file of this name, which must be there, to append to it.
///
/// # Errors
/// If the system gives an error.
pub fn open_to_append<'n, R: Files>(rt: &R, name: &'n str) -> io::Result<Asked<'n, R::File>>
    ensures named { IfOk result (λ asked. asked.name.now ≡ name.now) }
    ensures purpose { IfOk result (λ asked. asked.purpose ≡ Purpose.Appending) }
{
    open(rt, Purpose::Appending, name)
}

impl<'n> Looked<'n> {
    pub fn facts(&self) -> &FileFacts
        ensures { result.now ≡ self.now.facts }
    {
        &self.facts
    }

    /// Opens the file for reading. Only a regular one may be: opening a pipe may block.
    ///
    /// # Errors
    /// If the system gives an error.
    pub fn open_to_read<R: Files>(&self, rt: &R) -> io::Result<Asked<'n, R::File>>
        requires regular { IsTrue self.now.facts.is_regular }
        ensures named { IfOk result (λ asked. asked.name.now ≡ self.now.name.now) }
        ensures purpose { IfOk result (λ asked. asked.purpose ≡ Purpose.Reading) }
    {
        open(rt, Purpose::Reading, self.name)
    }
}

impl<'n, F: OpenFile + Drop> Asked<'n, F> {
    /// Has the system describe the open file.
    ///
    /// # Errors
    /// If the system gives an error.
    pub fn describe(self) -> io::Result<Described<'n, F>>
        ensures file { IfOk result (λ described. described.file ≡ self.entry.file) }
        ensures named { IfOk result (λ described. described.name.now ≡ self.entry.name.now) }
        ensures purpose { IfOk result (λ described. described.purpose ≡ self.entry.purpose) }
    {
        let metadata = self.file.metadata()?;
        Ok(Described {
            file: self.file,
            name: self.name,
            purpose: self.purpose,
            facts: FileFacts::of(&metadata),
        })
    }
}

impl<'n, F: Write> Asked<'n, F> {
    /// Appends a prefix of the bytes to the file, which was there.
    pub fn append(&mut self, bytes: &[u8]) -> Result<usize, Failed>
        requires there { self.old.purpose ≡ Purpose.Appending }
        ensures bound { IfOk result (λ k. k ≤ length bytes.now) }
        ensures some { IfOk result (λ k. 0 < length bytes.now → 0 < k) }
    {
        write_some(&mut self.file, bytes)
    }
}

impl<F: Seek> Described<'_, F> {
    /// The length of the file in bytes, found by a seek to its end.
    ///
    /// # Errors
    /// If the seek fails.
    pub fn length(&mut self) -> io::Result<u64>
        ensures moves { SeekMoves (F.stream_position self.old.file)
            (F.stream_position self.new.file) (F.stream_bytes self.old.file)
            (SeekFrom.End (pos 0)) result }
        ensures bytes { Keeps (F.stream_bytes self.old.file) (F.stream_bytes self.new.file) }
        ensures named { self.new.name.now ≡ self.old.name.now }
        ensures purpose { self.new.purpose ≡ self.old.purpose }
        ensures facts { self.new.facts ≡ self.old.facts }
    {
        length_of(&mut self.file)
    }
}

impl<'n, F: OpenFile + Drop> Described<'n, F> {
    pub fn facts(&self) -> &FileFacts
        ensures { result.now ≡ self.now.facts }
    {
        &self.facts
    }

    /// Empties the file, which must be a regular one and none of those that were found. These are
    /// passed for that condition alone: no call is made without them.
    ///
    /// # Errors
    /// If the system gives an error.
    pub fn empty(self, _noted: &NotedFiles) -> io::Result<Described<'n, F>>
        requires regular { IsTrue self.facts.is_regular }
        requires unfound { is_noted _noted.now self.facts.id ≡ false }
        ensures file { IfOk result (λ described. described.file ≡ self.entry.file) }
        ensures named { IfOk result (λ described. described.name.now ≡ self.entry.name.now) }
        ensures purpose { IfOk result (λ described. described.purpose ≡ self.entry.purpose) }
        ensures facts { IfOk result (λ described. described.facts
            ≡ record self.entry.facts { length = 0 }) }
    {
        self.file.set_len(0)?;
        let facts = FileFacts {
            length: 0,
            ..self.facts
        };
        Ok(Described { facts, ..self })
    }
}
