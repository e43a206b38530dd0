//! What decides a frame's length within a class.

use std::marker::Model;

/// A bit rate index from 1 to 14, and whether the padding bit is set, which makes the frame one byte
/// longer.
#[derive(Clone, Copy, Debug, PartialEq, Eq)]
pub struct Slot {
    pub rate_index: u8,
    pub padding: bool,
}

impl Model for Slot {
    ghost use Rattle.frame_header.specs.Fields.{SlotFields, IsSlot};

    ghost Value = { SlotFields };

    ghost view = { λ s. record { rate_index = s.rate_index; padding = s.padding } };

    ghost invariant = { λ s. IsSlot (record { rate_index = s.rate_index; padding = s.padding }) };

    ghost inverse = { λ v. record { rate_index = v.rate_index; padding = v.padding } };
}

impl Default for Slot {
    ghost use Rattle.std.specs.Prelude.{◌≡◌, false};

    ghost is_default = { λ s. s ≡ record { rate_index = 1; padding = false } };

    /// The lowest bit rate without padding.
    fn default() -> Self {
        Slot {
            rate_index: 1,
            padding: false,
        }
    }
}
