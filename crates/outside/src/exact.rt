//! Reads bytes that a file had when it was found: all of them or none.
ghost use Rattle.std.specs.Prelude.{◌≡◌, ◌+◌, ◌^◌, ◌<◌, ◌≤◌, length};
ghost use Rattle.outside.specs.Files.{IsFileThere};
ghost use Rattle.outside.specs.Feed.{IsFedFrom, most_given};
ghost use Rattle.outside.specs.Seen.{OnFile};
ghost use Rattle.outside.specs.Answers.{ReadExact, FillExact};

use crate::feed::Feed;
use crate::folder::Folder;
use crate::helpers::read_full;

/// Why bytes that a file had when it was found were not read.
#[derive(Clone, Copy, Debug, PartialEq, Eq)]
pub enum ReadFault {
    /// A read failed.
    Failed,
    /// The file had the first length when it was found, and ended at the second when it was read, in bytes.
    Shrunk(u64, u64),
}

/// Reads bytes of a file from the offset `at` on until `into` is full. They lie within its `size`,
/// the length in bytes that it was found with. The files don't change.
///
/// # Errors
/// `Failed` if a read failed; `Shrunk` if one returned no byte before `into` was full, which
/// happens only where the content of the files isn't known.
pub fn read_exact<D: Folder>(
    folder: &mut D,
    name: &str,
    size: u64,
    at: u64,
    into: &mut [u8],
) -> Result<(), ReadFault>
    requires there { IsFileThere (D.seen folder.old).files name.now }
    requires found { OnFile (D.seen folder.old) name.now (λ bytes. length bytes ≡ size) }
    requires few { size < 2 ^ 63 }
    requires within { at + length into.old ≤ size }
    ensures { ReadExact name.now size at into.old into.new (D.seen folder.old)
        (D.seen folder.new) result }
{
    match read_full(folder, name, at, into) {
        Ok(got) if got < into.len() => Err(ReadFault::Shrunk(size, at + got as u64)),
        Ok(_) => Ok(()),
        Err(_) => Err(ReadFault::Failed),
    }
}

impl Feed {
    /// Gives `n` bytes of a file from the offset `at` on, as `fill` does. They lie within its
    /// `size`, the length in bytes that it was found with.
    ///
    /// # Errors
    /// As `read_exact`.
    #[inline]
    pub fn fill_exact<D: Folder>(
        &mut self,
        folder: &mut D,
        name: &str,
        size: u64,
        at: u64,
        n: usize,
    ) -> Result<(), ReadFault>
        requires there { IsFileThere (D.seen folder.old).files name.now }
        requires found { OnFile (D.seen folder.old) name.now (λ bytes. length bytes ≡ size) }
        requires few { n ≤ most_given }
        requires short { size ≤ 2 ^ 32 }
        requires within { at + n ≤ size }
        requires fed { IsFedFrom self.old (D.seen folder.old).files name.now }
        ensures { FillExact name.now size at n self.new (D.seen folder.old)
            (D.seen folder.new) result }
    {
        match self.fill(folder, name, at, n) {
            Ok(got) if got < n => Err(ReadFault::Shrunk(size, at + got as u64)),
            Ok(_) => Ok(()),
            Err(_) => Err(ReadFault::Failed),
        }
    }
}
