//! Why a row isn't as it says.

use crate::differences::Found;
use std::alloc::AllocError;
use test_files::texts::TextFault;

/// Why a row isn't as it says.
#[derive(Drop)]
pub enum Stop {
    Memory,
    Found(Found),
    /// What was found in a run where a call fails: the line of the call, and its number.
    Turn(&'static str, usize, Found),
}

impl From<AllocError> for Stop {
    fn from(_: AllocError) -> Stop {
        Stop::Memory
    }
}

impl From<TextFault> for Stop {
    fn from(fault: TextFault) -> Stop {
        match fault {
            TextFault::Memory => Stop::Memory,
            TextFault::Word(word) => Stop::Found(Found::word(word)),
        }
    }
}

/// Continues with the row where nothing was found.
pub fn none_of(found: Option<Found>) -> Result<(), Stop> {
    match found {
        Some(found) => Err(Stop::Found(found)),
        None => Ok(()),
    }
}
