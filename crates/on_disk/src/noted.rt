//! The files that a folder found, so that none of them is emptied.
ghost use Rattle.std.specs.Prelude.{◌≡◌, [], ◌∷◌, ◌++◌, length, ◌||◌, ◌&&◌, not, nat_lt, if◌then◌else◌, IsTrue};
ghost use Rattle.on_disk.specs.NotedFiles.{is_noted, numbers_of, create_action};

use crate::system::{FileFacts, FileId};
use arrayvec::ArrayVec;

// The 64 inputs of a join, and a cue sheet.
const MOST_FILES: usize = 65;

/// The files that were found, at most 65.
#[derive(Drop)]
pub struct NotedFiles {
    // Device and inode number of each.
    files: ArrayVec<(u64, u64), MOST_FILES>,
}

impl NotedFiles {
    pub fn new() -> Self
        ensures { result.files.items ≡ [] }
    {
        NotedFiles {
            files: ArrayVec::new(),
        }
    }

    /// Whether the file was noted, by whatever name.
    pub fn has(&self, file: &FileId) -> bool
        ensures { result ≡ is_noted self.now file.now }
    {
        self.files.as_slice().contains(&file.numbers())
    }

    /// Notes a file unless it is noted already, and returns whether it is noted now.
    pub fn note(&mut self, file: FileId) -> bool
        ensures answer { result ≡ (is_noted self.old file || nat_lt
            (length self.old.files.items) 65) }
        ensures noted { self.new.files.items ≡ (if result && not (is_noted self.old file) then
            self.old.files.items ++ numbers_of file ∷ [] else self.old.files.items) }
        ensures there { IsTrue result → IsTrue (is_noted self.new file) }
        ensures stay { (other : FileId) → IsTrue (is_noted self.old other)
            → IsTrue (is_noted self.new other) }
    {
        self.has(&file) || self.files.try_push(file.numbers()).is_ok()
    }
}

/// What `create` does with a file that it opened.
#[derive(Clone, Copy, Debug, PartialEq, Eq)]
pub enum CreateAction {
    /// The file was found before: it is left as it is, and the call fails.
    Refused,
    /// A regular file loses its bytes.
    Emptied,
    /// A file without bytes, and anything but a regular file, such as a terminal, is left as it is.
    Kept,
}

/// What `create` does with a file.
pub fn create_action_of(noted: &NotedFiles, file: &FileFacts) -> CreateAction
    ensures { result
        ≡ create_action (is_noted noted.now file.now.id) file.now.is_regular file.now.length }
{
    match (noted.has(&file.id()), file.is_regular()) {
        (true, _) => CreateAction::Refused,
        (false, true) if file.length() > 0 => CreateAction::Emptied,
        (false, _) => CreateAction::Kept,
    }
}
