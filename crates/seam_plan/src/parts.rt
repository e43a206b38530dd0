//! The parts of one file as one splice: how each joins those before it.
ghost use Rattle.std.specs.Prelude.{◌≡◌, ◌++◌, List};
ghost use Rattle.frame_header.specs.Fields.{ClassFields};
ghost use Rattle.frame_header.specs.Tables.{window_of};
ghost use Rattle.slot_plan.specs.FreeBytes.{FitsBehind, IsMostLeft};
ghost use Rattle.seam_plan.specs.PartSplices.{IsPartJoint, IsPartNeeds, IsPartSplice, IsSoundPartSplice, item_needs, joint_items, splice_part_items};

use crate::adding::{left_behind, left_in_slot};
use frame_header::{Class, Header, Slot};
use slot_plan::{Need, joins, lead_in, leaves};

/// How the frames of a part join those before them.
#[derive(Clone, Copy, Debug, PartialEq, Eq)]
pub enum PartJoint {
    /// The first of them is in this slot: its own, or the least greater one with which there is
    /// room.
    InSlot(Slot),
    /// A lead-in with this header comes before them, since there is no room in any slot.
    Led(Header),
}

/// A splice of parts: how many bytes its frames leave after a whole window.
#[derive(Clone, Copy, Debug)]
pub struct PartSplice {
    class: Class,
    left: u32,
}

impl PartSplice {
    /// The splice that begins with the frames of the first part, each in its own slot. There is at
    /// least one; they are of this class, and fit after a whole window. It takes no memory.
    pub fn begin(class: Class, needs: &[Need]) -> PartSplice
        requires { IsPartNeeds class needs.now }
        ensures splice { IsPartSplice class needs.now result }
        ensures sound { IsSoundPartSplice result }
        ensures class { result.class ≡ class }
    {
        PartSplice {
            class,
            left: leaves(needs, class.window()),
        }
    }

    /// How the frames of a part join the splice.
    fn decide(&self, needs: &[Need]) -> PartJoint
        requires part { IsPartNeeds self.now.class needs.now }
        requires sound { IsSoundPartSplice self.now }
        ensures items { (class : ClassFields) (splice : List Need)
            → IsPartSplice class splice self.now
            → splice_part_items (window_of class.version) splice needs.now
            ≡ joint_items result needs.now }
        ensures joint { IsPartJoint self.now.class self.now.left needs.now result }
    {
        match joins(self.left, needs) {
            Some(slot) => PartJoint::InSlot(slot),
            None => PartJoint::Led(lead_in(needs)),
        }
    }

    /// How many bytes the splice leaves with the frames of a part that join so.
    fn left_with(&self, needs: &[Need], joint: &PartJoint) -> u32
        requires part { IsPartNeeds self.now.class needs.now }
        requires sound { IsSoundPartSplice self.now }
        requires joint { IsPartJoint self.now.class self.now.left needs.now joint.now }
        ensures { IsMostLeft (window_of self.now.class.version) self.now.left
            (item_needs (joint_items joint.now needs.now)) result }
    {
        match joint {
            PartJoint::InSlot(slot) => left_in_slot(self.class, self.left, needs, *slot),
            PartJoint::Led(header) => {
                let lead_in = Need {
                    header: *header,
                    bytes: 0,
                };
                left_behind(self.class, self.left, &lead_in, needs)
            }
        }
    }

    /// Lays the frames of the next part behind the splice, which then has them too, and says how they
    /// join: the first in the least slot, not less than its own, in which they can, or otherwise
    /// behind the lead-in that they have alone. The other frames keep their own slots. There is at
    /// least one frame; they are of the splice's class, and fit after a whole window. It takes no
    /// memory.
    pub fn join(&mut self, needs: &[Need]) -> PartJoint
        requires part { IsPartNeeds self.old.class needs.now }
        requires sound { IsSoundPartSplice self.old }
        ensures items { (class : ClassFields) (splice : List Need)
            → IsPartSplice class splice self.old
            → splice_part_items (window_of class.version) splice needs.now
            ≡ joint_items result needs.now }
        ensures goes_on { (class : ClassFields) (splice : List Need)
            → IsPartSplice class splice self.old
            → IsPartSplice class (splice ++ item_needs (joint_items result needs.now)) self.new }
        // Whatever the splice is.
        ensures joint { IsPartJoint self.old.class self.old.left needs.now result }
        ensures sound { IsSoundPartSplice self.new }
        ensures class { self.new.class ≡ self.old.class }
    {
        let joint = self.decide(needs);
        self.left = self.left_with(needs, &joint);
        joint
    }
}
