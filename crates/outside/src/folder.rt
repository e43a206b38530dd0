//! A folder of files.
ghost use Rattle.std.specs.Prelude.{◌≡◌, Bool, true, OnOk};
ghost use Rattle.outside.specs.Files.{IsFileMissing, IsFileThere};
ghost use Rattle.outside.specs.Seen.{Seen};
ghost use Rattle.outside.specs.Answers.{FindAnswer, ReadAnswer, ThereAnswer, CreateAnswer, MakeAnswer, WriteAnswer};

use std::alloc::AllocError;
use std::io;
use std::io::ErrorKind;

/// A call to the outside failed.
#[derive(Clone, Copy, Debug, PartialEq, Eq)]
pub struct Failed;

/// Why a file was not found.
#[derive(Clone, Copy, Debug, PartialEq, Eq)]
pub enum FindFault {
    /// There is no file of that name.
    Absent,
    /// The call failed.
    Failed,
}

impl From<io::Error> for Failed {
    fn from(_: io::Error) -> Self {
        Failed
    }
}

impl From<AllocError> for Failed {
    fn from(_: AllocError) -> Self {
        Failed
    }
}

impl From<FindFault> for Failed {
    fn from(_: FindFault) -> Self {
        Failed
    }
}

impl From<io::Error> for FindFault {
    ghost use Rattle.outside.specs.Faults.{IsFaultOf};

    ghost from_gives = { λ error fault. IsFaultOf error fault };

    fn from(error: io::Error) -> Self {
        match error.kind() {
            ErrorKind::NotFound => FindFault::Absent,
            _ => FindFault::Failed,
        }
    }
}

impl From<AllocError> for FindFault {
    ghost use Rattle.outside.specs.declared.folder.FindFault.TheVariants.{Failed as FailedCall};

    ghost from_gives = { λ _ fault. fault ≡ FailedCall };

    fn from(_: AllocError) -> Self {
        FindFault::Failed
    }
}

/// A folder of files, each with a name. Contracts see what is known of them: a map from names to
/// bytes, or, where their content isn't known, how each name was touched, that is, created or
/// written to. A call that succeeds leaves all counts as they are, except for a read of no byte
/// into a buffer that isn't empty, which counts as an end.
pub trait Folder {
    /// What is seen of it: what is known of the files, how often a file was missing, a read met an
    /// end, and a call failed, and which file it last happened to. Whether the content of the files
    /// is known never changes.
    ghost seen: { Self → Seen };

    /// Whether the folder keeps what is there, which never changes.
    ghost keeping: { Bool };

    /// Whether the folder keeps what is there: `create` makes a name only where nothing is there. A
    /// command over such a folder asks whether its outputs are there before it creates one.
    fn keeps(&self) -> bool
        ensures { result ≡ keeping };

    /// The length of the file in bytes. What is known of its content are bytes, so numbers below
    /// 256.
    ///
    /// # Errors
    /// `Absent` if the name isn't there, `Failed` if the call failed.
    fn find(&mut self, name: &str) -> Result<u64, FindFault>
        ensures answer { FindAnswer name.now (seen self.old) (seen self.new) result };

    /// Reads bytes of the file from the offset `at` on into the beginning of `into`, and returns
    /// how many: none only if `into` is empty or `at` is at the end or past it. The rest of `into`
    /// is unchanged.
    ///
    /// # Errors
    /// If the call failed.
    fn read(&mut self, name: &str, at: u64, into: &mut [u8]) -> Result<usize, Failed>
        requires { IsFileThere (seen self.old).files name.now }
        ensures answer { ReadAnswer name.now at into.old into.new (seen self.old) (seen self.new)
            result };

    /// Whether anything stands under the name: a file, or anything else that an output would be
    /// written into, such as a device.
    ///
    /// # Errors
    /// If the call failed, which counts as a fault of writing, since it is asked about an output.
    fn there(&mut self, name: &str) -> Result<bool, Failed>
        ensures answer { ThereAnswer name.now (seen self.old) (seen self.new) result };

    /// Makes the name hold no bytes, whether or not it is there; in a folder that keeps what is
    /// there, only if it isn't. Every other name is unchanged.
    ///
    /// # Errors
    /// If the call failed. Then files whose content is known are unchanged; if it isn't known, this
    /// name may have been touched, but no other.
    fn create(&mut self, name: &str) -> Result<(), Failed>
        ensures answer { CreateAnswer name.now (seen self.old) (seen self.new) result }
        ensures fresh { keeping ≡ true
            → OnOk result (IsFileMissing (seen self.old).files name.now) };

    /// Makes the name, which isn't there, hold no bytes. Every other name is unchanged, and nothing
    /// that was there is lost, even if it came while the call was made.
    ///
    /// # Errors
    /// If the name is there, or the call failed. Both count as a fault of writing. Then files whose
    /// content is known are unchanged; if it isn't known, this name may have been touched, but no
    /// other.
    fn create_new(&mut self, name: &str) -> Result<(), Failed>
        ensures answer { MakeAnswer name.now (seen self.old) (seen self.new) result };

    /// Appends a prefix of the bytes to the file, and returns how many: at least one if there are
    /// any. Every other name is unchanged.
    ///
    /// # Errors
    /// If the call failed. Then the files are unchanged.
    fn write(&mut self, name: &str, bytes: &[u8]) -> Result<usize, Failed>
        requires { IsFileThere (seen self.old).files name.now }
        ensures answer { WriteAnswer name.now bytes.now (seen self.old) (seen self.new) result };
}
