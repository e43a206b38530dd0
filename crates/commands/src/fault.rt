//! Why a command wasn't done.

ghost use Rattle.std.specs.Prelude.{◌≡◌};
ghost use Rattle.commands.specs.declared.fault.EditFault.TheVariants.{Refused, Memory};
ghost use Rattle.commands.specs.FaultKinds.{survey_edit_fault, input_edit_fault};
ghost use Rattle.commands.specs.PassFaults.{pass_edit_fault};

use cue_sheet::CueFault;
use fade_plan::EnvelopeFault;
use outside::PassFault;
use std::alloc::{AllocError, AllocFailed};
use sync_survey::SurveyFault;

/// What a command finds wrong with files that are there and well-formed, or with a sheet.
#[derive(Clone, Copy, Debug, PartialEq, Eq)]
pub enum Refusal {
    /// A gain would leave the range from 0 to 255: the offset of its frame in bytes, its granule, its
    /// channel, and the gain that is there.
    GainRange(u64, u8, u8, u8),
    /// One channel is to change, and the file has only one.
    Mono,
    /// One channel is to change, and the frame at this offset in bytes has its two channels coded
    /// jointly.
    Joint(u64),
    /// The tag of the file, or the tag to be written, has this many bytes, more than 1,048,576.
    TagTooLarge(u64),
    /// The tag of the file is at fault at this offset in bytes.
    BadTag(u64),
    /// The tag of the file has no undo item.
    NoUndo,
    /// The value of the undo item at this offset in bytes isn't of the form of an undo item.
    BadUndo(u64),
    /// The undo item would have to hold this number of steps, which is outside -999 to 999.
    UndoRange(i32),
    /// The file to be written would have this many bytes, more than 1,073,741,824.
    OutputTooLong(u64),
    /// The frames from the first number up to, but not including, the second aren't in a file with
    /// the third number of frames, or are none.
    Range(u64, u64, u64),
    /// The samples from the first number up to, but not including, the second aren't among those
    /// that are played, whose number is the third, or are none.
    Span(u64, u64, u64),
    /// No frame of the class has this bit rate, in kbit/s.
    NoRate(u16),
    /// The main data up to this frame, counted from 0, don't fit in slots of the allowed bit rates,
    /// even after a lead-in.
    Unfit(u32),
    /// The frames of this input, counted from 0, are of another class than the frames of the first.
    Differ(u32),
    /// The sheet has this many bytes, more than 65,536.
    SheetTooLarge(u64),
    /// The cue sheet is at fault. Never `Memory`.
    Sheet(CueFault),
    /// The sheet of a fade is at fault. Never `Memory`.
    Curve(EnvelopeFault),
    /// The point in this line of the sheet of a fade, counted from 1, isn't after the one before it.
    CurveNotRising(u32),
    /// Something is there under the name of this output, counted from 0, and is to be kept.
    Exists(u32),
}

/// Why a command wasn't done.
#[derive(Clone, Copy, Debug, PartialEq, Eq)]
pub enum EditFault {
    /// An output has the name of this input, counted from 0.
    EqualNames(u32),
    /// This input, counted from 0, isn't there, can't be read, or is at fault. Never `Memory`.
    Input(u32, SurveyFault),
    /// The command refuses what it was given.
    Refused(Refusal),
    /// This output, counted from 0, could not be written.
    Write(u32),
    /// Standard output could not be written.
    Sent,
    /// Memory ran out.
    Memory,
}

impl From<Refusal> for EditFault {
    ghost from_gives = { λ refusal e. e ≡ Refused refusal };

    fn from(refusal: Refusal) -> EditFault {
        EditFault::Refused(refusal)
    }
}

impl From<AllocError> for EditFault {
    ghost from_gives = { λ _ e. e ≡ Memory };

    fn from(_: AllocError) -> EditFault {
        EditFault::Memory
    }
}

impl<T: Drop> From<AllocFailed<T>> for EditFault {
    ghost from_gives = { λ _ e. e ≡ Memory };

    fn from(_: AllocFailed<T>) -> EditFault {
        EditFault::Memory
    }
}

/// The fault of the one input of a command; running out of memory is a fault of its own.
impl From<SurveyFault> for EditFault {
    ghost from_gives = { λ fault e. e ≡ input_edit_fault fault };

    fn from(fault: SurveyFault) -> EditFault {
        EditFault::of_survey(0, fault)
    }
}

impl EditFault {
    /// The fault of the survey of this input, counted from 0; running out of memory is a fault of
    /// its own.
    pub fn of_survey(input: u32, fault: SurveyFault) -> EditFault
        ensures { result ≡ survey_edit_fault input fault }
    {
        match fault {
            SurveyFault::Memory => EditFault::Memory,
            _ => EditFault::Input(input, fault),
        }
    }

    /// The fault of a pass over this input that writes this output, both counted from 0.
    pub fn of_pass(input: u32, output: u32, fault: PassFault) -> EditFault
        ensures { result ≡ pass_edit_fault input output fault }
    {
        match fault {
            PassFault::Read => EditFault::Input(input, SurveyFault::Read),
            PassFault::Shrunk(first, second) => {
                EditFault::Input(input, SurveyFault::Shrunk(first, second))
            }
            PassFault::Write => EditFault::Write(output),
        }
    }
}
