//! The files that a folder keeps open.
ghost use Rattle.std.specs.Prelude.{◌≡◌, ℕ, ◌<◌, ◌≤◌, List, length, take, drop, IfOk, ◌-◌, Some, IsTrue, ◌↔◌, min, string_bytes};
ghost use Rattle.std.specs.Io.KnownBytes.{WriteAppends};
ghost use Rattle.on_disk.specs.RealFiles.{open_name, TellsBytes, ReadsFromOffset};

use super::{Described, FileFacts, FileId, Purpose};
use crate::reading::put_at;
use crate::writing::write_some;
use outside::Failed;
use std::io;
use std::io::{Read, Seek, Write};

/// A file that is kept open, with the name and the purpose for which it was opened, and what the
/// system said of it then.
#[derive(Drop)]
pub struct Opened<F> {
    name: String,
    file: F,
    purpose: Purpose,
    facts: FileFacts,
}

impl<F: Drop> Opened<F> {
    /// Keeps a file, and the name that the system got.
    pub fn of(name: String, described: Described<'_, F>) -> Self
        requires named { string_bytes name ≡ described.name.now }
        ensures name { result.name ≡ name }
        ensures file { result.file ≡ described.entry.file }
        ensures purpose { result.purpose ≡ described.entry.purpose }
        ensures facts { result.facts ≡ described.entry.facts }
    {
        Opened {
            name,
            file: described.file,
            purpose: described.purpose,
            facts: described.facts,
        }
    }
}

impl<F> Opened<F> {
    pub fn id(&self) -> FileId
        ensures { result ≡ self.now.facts.id }
    {
        self.facts.id
    }
}

impl<F: Write> Opened<F> {
    pub fn append(&mut self, bytes: &[u8]) -> Result<usize, Failed>
        ensures name { self.new.name ≡ self.old.name }
        ensures purpose { self.new.purpose ≡ self.old.purpose }
        ensures facts { self.new.facts ≡ self.old.facts }
        ensures bound { IfOk result (λ k. k ≤ length bytes.now) }
        ensures some { IfOk result (λ k. 0 < length bytes.now → 0 < k) }
        ensures appended { WriteAppends (F.contents self.old.file)
            (F.contents self.new.file) result bytes.now }
    {
        write_some(&mut self.file, bytes)
    }
}

impl<F: Read + Seek> Opened<F> {
    /// Reads from the offset `at` on, as much as there is and fits. The rest of `into` is unchanged.
    ///
    /// # Errors
    /// If the system gives an error, or if the file is cut short meanwhile.
    pub fn read_part(&mut self, at: u64, into: &mut [u8]) -> io::Result<usize>
        ensures name { self.new.name ≡ self.old.name }
        ensures purpose { self.new.purpose ≡ self.old.purpose }
        ensures facts { self.new.facts ≡ self.old.facts }
        ensures bound { IfOk result (λ k. k ≤ length into.old) }
        ensures rest { IfOk result (λ k. drop k into.new ≡ drop k into.old) }
        ensures whole { (xs : List ℕ) → TellsBytes F.stream_position F.stream_bytes self.old.file xs
            → IfOk result (λ k. k ≡ min (length into.old) (length xs - at)) }
        ensures bytes { ReadsFromOffset F.remaining F.stream_position F.stream_bytes → (xs : List ℕ)
            → TellsBytes F.stream_position F.stream_bytes self.old.file xs
            → IfOk result (λ k. take k into.new ≡ take k (drop at xs)) }
    {
        let left = put_at(&mut self.file, self.facts.length, at)?;
        let count = into.len().min(left as usize);
        // The contract of a read says nothing of the buffer after the bytes that it counts, so the
        // read gets no more of it than that.
        self.file.read_exact(&mut into[..count])?;
        Ok(count)
    }
}

/// Whether a file is open that was opened by this name.
pub fn is_open<F>(opened: &Option<Opened<F>>, name: &str) -> bool
    ensures { IsTrue result ↔ (open_name opened.now ≡ Some name.now) }
{
    match opened {
        Some(opened) => opened.name.as_str() == name,
        None => false,
    }
}
