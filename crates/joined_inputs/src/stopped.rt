//! Why a pass over the inputs of a join ended early.
ghost use Rattle.std.specs.Prelude.{◌≡◌};
ghost use Rattle.commands.specs.PassFaults.{pass_edit_fault};

use commands::EditFault;
use outside::PassFault;

/// The input whose pass ended early, counted from 0, and why. What is written before and after all
/// frames belongs to the first.
#[derive(Clone, Copy)]
pub struct Stopped {
    pub number: u32,
    pub fault: PassFault,
}

impl From<Stopped> for EditFault {
    ghost from_gives = { λ stopped e. e ≡ pass_edit_fault stopped.number 0 stopped.fault };

    fn from(stopped: Stopped) -> EditFault {
        EditFault::of_pass(stopped.number, 0, stopped.fault)
    }
}
