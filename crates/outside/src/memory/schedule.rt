//! The calls of one kind, some of which are to fail.
ghost use Rattle.std.specs.Prelude.{◌≡◌, [], ◌∷◌, ◌++◌, OnOk, OnErr};
ghost use Rattle.outside.specs.Schedules.{is_next_to_fail, schedule_after_call};

use std::alloc::{AllocError, Global};
use std::marker::Model;

/// How many calls were made, and the numbers of those that are to fail, counted from 1.
#[derive(Drop)]
pub struct Schedule {
    made: u64,
    failing: Vec<u64>,
}

impl Model for Schedule {
    ghost use Rattle.outside.specs.Schedules.{ScheduleFields};

    ghost Value = { ScheduleFields };

    ghost view = { λ s. record { made = s.made; failing = s.failing.items } };
}

impl Schedule {
    /// No call was made, and none is to fail. It takes no memory.
    pub fn new(alloc: Global) -> Self
        ensures { result ≡ record { made = 0; failing = [] } }
    {
        Schedule {
            made: 0,
            failing: Vec::new(alloc),
        }
    }

    /// Makes the call with this number fail, counted from 1.
    ///
    /// # Errors
    /// If memory runs out. Then the list of calls that are to fail is unchanged.
    pub fn fail(&mut self, number: u64) -> Result<(), AllocError>
        ensures added { OnOk result (self.new
            ≡ record self.old { failing = self.old.failing ++ number ∷ [] }) }
        ensures kept { OnErr result (self.new ≡ self.old) }
    {
        self.failing.push(number)?;
        Ok(())
    }

    /// Counts a call, and returns whether it is to fail. A number of calls that has reached
    /// `u64::MAX` stays there.
    pub fn next_fails(&mut self) -> bool
        ensures answer { result ≡ is_next_to_fail self.old }
        ensures counted { self.new ≡ schedule_after_call self.old }
    {
        self.made = self.made.saturating_add(1);
        self.failing.contains(&self.made)
    }
}
