//! Real files and a writer that a signal interrupts, that move few bytes, and that fail.

ghost use Rattle.std.specs.Prelude.{◌≤◌, IfOk};

use std::alloc::Allocator;
use std::cell::Cell;
use std::fs::{Metadata, OpenFile, OpenOptions};
use std::io;
use std::io::{ErrorKind, Read, Seek, SeekFrom, Write};
use std::rt::Files;

/// What the calls of a file do: the first two are interrupted, the third moves two bytes, the fourth
/// fails, and all others succeed.
#[derive(Drop)]
pub struct Moves {
    /// How many calls there were.
    pub calls: u64,
}

impl Moves {
    /// No call was made.
    pub fn new() -> Moves {
        Moves { calls: 0 }
    }

    /// How many of these bytes the next call moves.
    fn next(&mut self, length: usize) -> io::Result<usize>
        ensures { IfOk result (λ k. k ≤ length) }
    {
        self.calls = self.calls.saturating_add(1);
        match self.calls {
            1 | 2 => Err(io::Error::from(ErrorKind::Interrupted)),
            3 => Ok(length.min(2)),
            4 => Err(io::Error::from(ErrorKind::Other)),
            _ => Ok(length),
        }
    }
}

/// A writer into memory, which counts its calls. One flush fails.
#[derive(Drop)]
pub struct Notes {
    pub bytes: Vec<u8>,
    pub moves: Moves,
    pub flushes: u64,
    pub failing_flush: u64,
}

/// Real files. Each file that is opened has its own `Moves` for reading and for writing.
#[derive(Drop)]
pub struct Shaky<'a, R: Files> {
    pub files: &'a R,
    /// How many calls there were to open a file.
    pub opens: Cell<u64>,
}

/// A file that was opened through `Shaky`.
#[derive(Drop)]
pub struct ShakyFile<F> {
    file: F,
    reads: Moves,
    writes: Moves,
}

impl Write for Notes {
    fn write(&mut self, buf: &[u8]) -> io::Result<usize> {
        let count = self.moves.next(buf.len())?;
        self.bytes.extend_from_slice(&buf[..count])?;
        Ok(count)
    }

    fn flush(&mut self) -> io::Result<()> {
        self.flushes = self.flushes.saturating_add(1);
        if self.flushes == self.failing_flush {
            return Err(io::Error::from(ErrorKind::Other));
        }
        Ok(())
    }
}

impl<F: Read> Read for ShakyFile<F> {
    fn read(&mut self, buf: &mut [u8]) -> io::Result<usize> {
        let count = self.reads.next(buf.len())?;
        self.file.read(&mut buf[..count])
    }
}

impl<F: Write> Write for ShakyFile<F> {
    fn write(&mut self, buf: &[u8]) -> io::Result<usize> {
        let count = self.writes.next(buf.len())?;
        self.file.write(&buf[..count])
    }

    fn flush(&mut self) -> io::Result<()> {
        self.file.flush()
    }
}

impl<F: Seek> Seek for ShakyFile<F> {
    fn seek(&mut self, to: SeekFrom) -> io::Result<u64> {
        self.file.seek(to)
    }
}

impl<F: OpenFile> OpenFile for ShakyFile<F> {
    fn metadata(&self) -> io::Result<Metadata> {
        self.file.metadata()
    }

    fn set_len(&self, size: u64) -> io::Result<()> {
        self.file.set_len(size)
    }

    fn sync_all(&self) -> io::Result<()> {
        self.file.sync_all()
    }

    fn sync_data(&self) -> io::Result<()> {
        self.file.sync_data()
    }
}

impl<R: Files> Files for Shaky<'_, R> {
    type File = ShakyFile<R::File>;

    type Dir = R::Dir;

    fn open_file(&self, how: &OpenOptions, path: &str) -> io::Result<ShakyFile<R::File>> {
        self.opens.set(self.opens.get().saturating_add(1));
        Ok(ShakyFile {
            file: self.files.open_file(how, path)?,
            reads: Moves::new(),
            writes: Moves::new(),
        })
    }

    fn open_dir(&self, path: &str) -> io::Result<R::Dir> {
        self.files.open_dir(path)
    }

    fn metadata(&self, path: &str) -> io::Result<Metadata> {
        self.files.metadata(path)
    }

    fn symlink_metadata(&self, path: &str) -> io::Result<Metadata> {
        self.files.symlink_metadata(path)
    }

    fn copy(&self, from: &str, to: &str) -> io::Result<u64> {
        self.files.copy(from, to)
    }

    fn rename(&self, from: &str, to: &str) -> io::Result<()> {
        self.files.rename(from, to)
    }

    fn remove_file(&self, path: &str) -> io::Result<()> {
        self.files.remove_file(path)
    }

    fn create_dir(&self, path: &str) -> io::Result<()> {
        self.files.create_dir(path)
    }

    fn remove_dir(&self, path: &str) -> io::Result<()> {
        self.files.remove_dir(path)
    }

    fn remove_dir_all<B: Allocator>(&self, alloc: B, path: &str) -> io::Result<()> {
        self.files.remove_dir_all(alloc, path)
    }
}
