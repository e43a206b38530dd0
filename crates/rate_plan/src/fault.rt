//! Why there is no plan.
ghost use Rattle.std.specs.Prelude.{◌≡◌};
ghost use Rattle.rate_plan.specs.declared.fault.RateFault.TheVariants.{Memory};

use std::alloc::{AllocError, AllocFailed};
use thiserror::Error;

/// Why there is no plan from a menu.
#[derive(Clone, Copy, Debug, PartialEq, Eq, Error)]
pub enum RateFault {
    /// The first frame, counted from 0, up to which the frames have no layout in slots of the menu,
    /// even after a lead-in.
    #[error("frame {0} does not fit")]
    Unfit(u32),
    /// Memory ran out.
    #[error("out of memory")]
    Memory,
}

impl From<AllocError> for RateFault {
    ghost from_gives = { λ _ fault. fault ≡ Memory };

    fn from(_: AllocError) -> RateFault {
        RateFault::Memory
    }
}
