//! Why there is no survey of a file. Offsets and lengths are in bytes.
ghost use Rattle.std.specs.Prelude.{◌≡◌};
ghost use Rattle.sync_survey.specs.declared.survey_fault.SurveyFault.TheVariants.{Memory};

use outside::ReadFault;
use std::alloc::{AllocError, AllocFailed};

/// Why there is no survey of a file.
#[derive(Clone, Copy, Debug, PartialEq, Eq)]
pub enum SurveyFault {
    /// The file isn't there.
    Absent,
    /// The file has this many bytes, more than 1,073,741,824.
    TooLong(u64),
    /// No frame begins where the front of the file ends, nor after junk; or, with the file's
    /// length, the only frame is a head.
    NoFrame(u64),
    /// Neither a frame nor a block nor a zero byte begins here.
    LostSync(u64),
    /// The frame or block that begins here goes past the end of the file.
    Truncated(u64),
    /// A header of free format begins here.
    FreeFormat(u64),
    /// The frame here is of another class than the first frame: its version, sampling frequency or
    /// number of channels differs.
    Mixed(u64),
    /// The check word of the frame here is wrong: the word that is there, and the right one.
    CheckWord(u64, u16, u16),
    /// The main data of the frame here begin before all areas of the file, and an earlier frame has main
    /// data, so that the frame isn't lost: its main_data_begin, and how many bytes of areas are before it.
    BackPointer(u64, u32, u64),
    /// The main data of the frame here begin before the main data of an earlier frame end.
    Overlap(u64),
    /// The main data of the frame here go past the end of its own area: how many bits they have, and how
    /// many bits there are for them.
    Overrun(u64, u32, u32),
    /// The frame here is the first past the number that is allowed.
    TooManyFrames(u64),
    /// The file had the first length when it was found, and ended at the second when it was read.
    Shrunk(u64, u64),
    /// The file could not be read.
    Read,
    /// Memory ran out.
    Memory,
}

impl From<ReadFault> for SurveyFault {
    ghost use Rattle.sync_survey.specs.SurveyFaultKinds.{survey_fault_of};

    ghost from_gives = { λ fault e. e ≡ survey_fault_of fault };

    fn from(fault: ReadFault) -> SurveyFault {
        match fault {
            ReadFault::Failed => SurveyFault::Read,
            ReadFault::Shrunk(first, second) => SurveyFault::Shrunk(first, second),
        }
    }
}

impl From<AllocError> for SurveyFault {
    ghost from_gives = { λ _ e. e ≡ Memory };

    fn from(_: AllocError) -> SurveyFault {
        SurveyFault::Memory
    }
}

impl<T: Drop> From<AllocFailed<T>> for SurveyFault {
    ghost from_gives = { λ _ e. e ≡ Memory };

    fn from(_: AllocFailed<T>) -> SurveyFault {
        SurveyFault::Memory
    }
}
