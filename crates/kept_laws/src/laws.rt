//! The law of commands that keep what is there. The function does nothing: a proof that needs the law calls it.
ghost use Rattle.kept_laws.specs.Laws.{KeptCommandsLeaveAll};

/// A command that keeps what is there is the same command, but refused where the name of an output is there: after all its
/// other refusals, and with the number of the first. What it makes leaves each file that was there, and to keep twice is to
/// keep once.
pub fn kept_commands_leave_all()
    ensures { KeptCommandsLeaveAll }
{}
