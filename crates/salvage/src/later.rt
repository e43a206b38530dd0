//! The later frames of a damaged file, which are most of it.
ghost use Rattle.std.specs.Prelude.{◌≡◌, ◌≤◌, ℕ, true, List, Some, length, min, IfSome};
ghost use Rattle.sync_survey.specs.Looks.{look_size, Shows, PassesFront};
ghost use Rattle.salvage.specs.declared.usable.Role.TheVariants.{Later};
ghost use Rattle.salvage.specs.Walk.{item_read};
ghost use Rattle.salvage.specs.Steps.{admits_item};

use crate::usable::has_right_crc;
use frame_header::Class;
use sync_survey::{Item, Step, header_of_class};

/// The whole frame with which the bytes of a look at the offset begin, if it is usable as a later
/// frame of the class. `left` is how many bytes the file has from there on.
#[inline(always)]
pub(crate) fn later_frame(class: Class, front: &[u8], at: u64, left: u64) -> Option<Step>
    requires many { length front.now ≡ min look_size left }
    ensures read { (file : List ℕ) → Shows file at front.now left
        → IfSome result (λ s. item_read file (Later class) at ≡ Some s.item) }
    ensures usable { IfSome result (λ s. admits_item (Later class) at s.item front.now ≡ true) }
    ensures passes { IfSome result (PassesFront front.now left) }
{
    let header = header_of_class(class, front)?;
    let size = u64::from(class.length_of(header.slot));
    if size > left || !has_right_crc(&header, front) {
        return None;
    }
    let item = Item::Frame(header);
    Some(Step { item, size })
}
