//! A second pass over an input: reads it again, and writes an output.
ghost use Rattle.std.specs.Prelude.{◌≡◌, ◌+◌, ◌≤◌, length};
ghost use Rattle.outside.specs.Files.{IsFileThere};
ghost use Rattle.outside.specs.Pass.{IsPassReady, bytes_at, bytes_between};
ghost use Rattle.outside.specs.Pass.{PassMakes, PassPushes, PassFills, PassFinishes};
ghost use Rattle.outside.specs.Feed.{most_given};

use crate::exact::ReadFault;
use crate::feed::Feed;
use crate::folder::Folder;
use crate::sizes::PIECE_SIZE;
use crate::write_buffer::WriteBuffer;

/// Why a pass ended early.
#[derive(Clone, Copy, Debug, PartialEq, Eq)]
pub enum PassFault {
    /// The input could not be read.
    Read,
    /// The input had the first length when it was found, and ended at the second when it was read, in
    /// bytes.
    Shrunk(u64, u64),
    /// The output could not be written.
    Write,
}

/// A read of the input failed, or the input has become shorter.
impl From<ReadFault> for PassFault {
    ghost use Rattle.outside.specs.Pass.{pass_fault_of};

    ghost from_gives = { λ fault e. e ≡ pass_fault_of fault };

    fn from(fault: ReadFault) -> PassFault {
        match fault {
            ReadFault::Failed => PassFault::Read,
            ReadFault::Shrunk(first, second) => PassFault::Shrunk(first, second),
        }
    }
}

/// What a pass reads and what it writes.
#[derive(Clone, Copy)]
pub struct Pass<'a> {
    pub input: &'a str,
    pub output: &'a str,
    /// The length in bytes that the input was found with.
    pub length: u64,
}

impl<'a> Pass<'a> {
    /// Gives `n` bytes of the input from the offset `at` on: at most 4,096, and within its length.
    ///
    /// # Errors
    /// `Read` if a read failed; `Shrunk` if the input ends before the last of them.
    #[inline]
    pub fn fill<D: Folder>(
        &self,
        folder: &mut D,
        at: u64,
        n: usize,
        feed: &mut Feed,
    ) -> Result<(), PassFault>
        requires ready { IsPassReady self.now (D.seen folder.old).files feed.old }
        requires few { n ≤ most_given }
        requires within { at + n ≤ self.now.length }
        ensures { PassFills self.now at n feed.new (D.seen folder.old) (D.seen folder.new) result }
    {
        feed.fill_exact(folder, self.input, self.length, at, n)?;
        Ok(())
    }

    /// Adds a piece to what waits for the output.
    ///
    /// # Errors
    /// `Write` if a write failed.
    #[inline]
    pub fn push<D: Folder>(
        &self,
        folder: &mut D,
        piece: &[u8],
        waiting: &mut WriteBuffer,
    ) -> Result<(), PassFault>
        requires { IsFileThere (D.seen folder.old).files self.now.output.now }
        ensures { PassPushes self.now waiting.old piece.now waiting.new (D.seen folder.old)
            (D.seen folder.new) result }
    {
        match waiting.push(folder, self.output, piece) {
            Ok(()) => Ok(()),
            Err(_) => Err(PassFault::Write),
        }
    }

    /// Copies the bytes of the input from one offset up to another, both within its length.
    ///
    /// # Errors
    /// As `fill` and `push`.
    #[inline]
    pub fn copy<D: Folder>(
        &self,
        folder: &mut D,
        from: u64,
        to: u64,
        feed: &mut Feed,
        waiting: &mut WriteBuffer,
    ) -> Result<(), PassFault>
        requires ready { IsPassReady self.now (D.seen folder.old).files feed.old }
        requires ordered { from ≤ to }
        requires within { to ≤ self.now.length }
        ensures { PassMakes self.now (λ file. bytes_between file from to) waiting.old waiting.new
            feed.new (D.seen folder.old) (D.seen folder.new) result }
    {
        let mut at = from;
        while at < to {
            let n = (to - at).min(PIECE_SIZE);
            self.copy_piece(folder, at, n as usize, feed, waiting)?;
            at += n;
        }
        Ok(())
    }

    // Copies at most 4,096 bytes.
    #[inline(never)]
    fn copy_piece<D: Folder>(
        &self,
        folder: &mut D,
        at: u64,
        n: usize,
        feed: &mut Feed,
        waiting: &mut WriteBuffer,
    ) -> Result<(), PassFault>
        requires ready { IsPassReady self.now (D.seen folder.old).files feed.old }
        requires few { n ≤ most_given }
        requires within { at + n ≤ self.now.length }
        ensures { PassMakes self.now (bytes_at at n) waiting.old waiting.new feed.new
            (D.seen folder.old) (D.seen folder.new) result }
    {
        self.fill(folder, at, n, feed)?;
        self.push(folder, feed.bytes(), waiting)
    }

    /// Appends what waits to the output.
    ///
    /// # Errors
    /// `Write` if a write failed.
    pub fn finish<D: Folder>(
        &self,
        folder: &mut D,
        waiting: &mut WriteBuffer,
    ) -> Result<(), PassFault>
        requires { IsFileThere (D.seen folder.old).files self.now.output.now }
        ensures { PassFinishes self.now waiting.old waiting.new (D.seen folder.old)
            (D.seen folder.new) result }
    {
        match waiting.finish(folder, self.output) {
            Ok(()) => Ok(()),
            Err(_) => Err(PassFault::Write),
        }
    }
}
