//! What `plan` is given, and what it returns.

use frame_header::{Header, Slot};
use info_header::InSlot;

/// A frame to place: its header, and the length of its main data in bytes. It takes 16 bytes of
/// memory.
#[derive(Clone, Copy, Debug, PartialEq, Eq)]
pub struct Need {
    pub header: Header,
    pub bytes: u32,
}

/// A frame of a plan: whether it is a lead-in, its slot, and its main_data_begin in bytes (ISO/IEC
/// 11172-3, 2.4.2.7).
#[derive(Clone, Copy, Debug, PartialEq, Eq)]
pub struct Placed {
    pub lead_in: bool,
    pub slot: Slot,
    pub begin: u16,
}

impl InSlot for Placed {
    ghost slot_of = { λ p. p.slot };

    fn slot(&self) -> Slot {
        self.slot
    }
}

/// The frames of all parts with their lead-ins, in order of output.
#[derive(Debug, Drop)]
pub struct Plan {
    pub(crate) placed: Vec<Placed>,
}

impl Plan {
    ghost use Rattle.std.specs.Prelude.{◌≡◌};
    ghost use Rattle.slot_plan.specs.Plans.{entries};

    /// A plan with these entries.
    pub fn from_placed(placed: Vec<Placed>) -> Plan
        ensures { entries result ≡ placed.items }
    {
        Plan { placed }
    }

    /// The frames in order of output, a part's lead-in before its frames.
    pub fn placed(&self) -> &[Placed]
        ensures { result.now ≡ entries self.now }
    {
        &self.placed
    }
}
