//! What decides the areas of a class, computed once for all frames of a plan.
ghost use Rattle.std.specs.Prelude.{◌≡◌, ◌≤◌};
ghost use Rattle.frame_header.specs.Tables.{overhead_of, area_of};
ghost use Rattle.frame_header.specs.Limits.{most_frame_length, most_front};

use frame_header::{Class, Slot};
use std::marker::Model;

/// The lengths of a class's frames, and how many bytes are before their areas. Contracts see it as
/// the class.
#[derive(Drop)]
pub struct Lengths {
    class: Class,
    /// The lengths without padding of the bit rate indexes 1 to 14, in bytes.
    by_index: [u16; 14],
    /// The bytes before the area of a frame without a check word, and of one with it.
    unprotected: u32,
    protected: u32,
}

impl Model for Lengths {
    ghost use Rattle.frame_header.specs.Fields.{ClassFields};
    ghost use Rattle.slot_plan.specs.ClassLengths.{AreLengths};

    ghost Value = { ClassFields };

    ghost view = { λ l. l.class };

    ghost invariant = { λ l. AreLengths l.class l.by_index l.unprotected l.protected };
}

/// The slot of the lowest bit rate, without padding.
const FIRST_SLOT: Slot = Slot {
    rate_index: 1,
    padding: false,
};

impl Lengths {
    /// The lengths for this class.
    pub fn new(class: Class) -> Lengths
        ensures class { result ≡ class }
    {
        let mut by_index = [0; 14];
        for place in 0..14 {
            let slot = Slot {
                rate_index: place as u8 + 1,
                padding: false,
            };
            by_index[place] = class.length_of(slot) as u16;
        }
        let first = class.length_of(FIRST_SLOT);
        Lengths {
            class,
            by_index,
            unprotected: first - class.area_of(FIRST_SLOT, false),
            protected: first - class.area_of(FIRST_SLOT, true),
        }
    }

    /// How many bytes are before the area of a frame: header, check word and side information.
    pub fn overhead_of(&self, protected: bool) -> u32
        ensures overhead { result ≡ overhead_of self.now protected }
        ensures most { result ≤ most_front }
    {
        if protected {
            self.protected
        } else {
            self.unprotected
        }
    }

    /// The length of a frame's area, from 1 to 1,441 bytes.
    pub fn area_of(&self, slot: Slot, protected: bool) -> u32
        ensures area { result ≡ area_of self.now slot protected }
        ensures most { result ≤ most_frame_length }
    {
        let length = self.by_index[slot.rate_index as usize - 1];
        let overhead = self.overhead_of(protected);
        u32::from(length) + u32::from(slot.padding) - overhead
    }
}
