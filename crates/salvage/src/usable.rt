//! Frames of a damaged file that can be used.
ghost use Rattle.std.specs.Prelude.{◌≡◌, ◌+◌, ◌≤◌, ℕ, true, List, Ok, length, min, IfSome, option_and_then};
ghost use Rattle.frame_header.specs.Fields.{HeaderFields};
ghost use Rattle.frame_header.specs.Tables.{class_of, side_size_of};
ghost use Rattle.side_info.specs.Frame.{right_crc};
ghost use Rattle.sync_survey.specs.Items.{size_of, header_front};
ghost use Rattle.sync_survey.specs.Looks.{look_size, Shows, PassesFront, ReachArea};
ghost use Rattle.salvage.specs.UsableFrames.{has_right_crc, is_usable, usable_frame_at};
ghost use Rattle.sync_survey.specs.Chains.{frame_of_item};
ghost use Rattle.salvage.specs.Walk.{item_read};
ghost use Rattle.salvage.specs.Steps.{admits_item, IsItemRead};

use frame_header::{Class, Header};
use side_info::{check_word_of_bytes, stored_crc};
use sync_survey::{
    Item, PlacedFrame, Region, Step, anchored_frame, head_in, is_same_class, step_at,
};

/// What a frame is to be used as.
#[derive(Clone, Copy)]
pub(crate) enum Role {
    /// The first frame, which may be a head.
    First,
    /// A later frame, of the class of the first.
    Later(Class),
}

/// The right check word of the protected frame with which these bytes begin, whose side information
/// ends at byte `side_end`.
// Few frames are protected: this is a function of its own that takes no header, so that a walk over
// the other frames needn't put one in memory.
#[inline(never)]
fn right_crc(side_end: usize, bytes: &[u8]) -> u16
    requires some { 6 ≤ side_end }
    requires room { side_end ≤ length bytes.now }
    ensures { (h : HeaderFields) → header_front bytes.now ≡ Ok h → h.protected ≡ true
        → side_end ≡ 6 + side_size_of (class_of h) → result ≡ right_crc h bytes.now }
{
    check_word_of_bytes(&bytes[..4], &bytes[6..side_end])
}

/// Whether the frame with which these bytes begin has no check word, or the right one.
#[inline(always)]
pub(crate) fn has_right_crc(header: &Header, bytes: &[u8]) -> bool
    requires own { header_front bytes.now ≡ Ok header.now }
    requires room { ReachArea header.now bytes.now }
    ensures { result ≡ has_right_crc header.now bytes.now }
{
    if !header.protected {
        return true;
    }
    let side_end = 6 + header.class().side_size() as usize;
    stored_crc(bytes) == right_crc(side_end, bytes)
}

/// The frame that the item at the offset is.
fn frame_of(item: &Item, offset: u64) -> Option<PlacedFrame>
    ensures frame { result ≡ frame_of_item offset item.now }
    ensures offset { IfSome result (λ p. p.offset ≡ offset) }
    ensures size { IfSome result (λ p. size_of (Item.Frame p.header) ≡ size_of item.now) }
{
    match *item {
        Item::Frame(header) => Some(PlacedFrame { offset, header }),
        _ => None,
    }
}

impl Role {
    /// Whether a whole frame is usable for the role. `bytes` begin with the frame's own.
    pub(crate) fn admits(&self, frame: &PlacedFrame, bytes: &[u8]) -> bool
        requires own { header_front bytes.now ≡ Ok frame.now.header }
        requires room { ReachArea frame.now.header bytes.now }
        ensures { result ≡ is_usable self.now frame.now bytes.now }
    {
        match self {
            Role::First => {
                has_right_crc(&frame.header, bytes) || head_in(frame, bytes).is_some()
            }
            Role::Later(class) => {
                is_same_class(frame.header.class(), *class) && has_right_crc(&frame.header, bytes)
            }
        }
    }

    /// Whether a whole item at the offset is read. `bytes` begin with the item's own.
    fn admits_item(&self, item: &Item, bytes: &[u8], at: u64) -> bool
        requires own { (h : HeaderFields) → item.now ≡ Item.Frame h
            → header_front bytes.now ≡ Ok h }
        requires room { (h : HeaderFields) → item.now ≡ Item.Frame h → ReachArea h bytes.now }
        ensures { result ≡ admits_item self.now at item.now bytes.now }
    {
        match *item {
            Item::Frame(header) => self.admits(&PlacedFrame { offset: at, header }, bytes),
            _ => true,
        }
    }

    /// The usable anchored frame at the offset, where a look shows these bytes and `left` bytes of
    /// the file are left.
    pub(crate) fn anchored(&self, front: &[u8], at: u64, left: u64) -> Option<PlacedFrame>
        requires many { length front.now ≡ min look_size left }
        ensures frame { (file : List ℕ) → Shows file at front.now left
            → result ≡ usable_frame_at file self.now at }
        ensures offset { IfSome result (λ p. p.offset ≡ at) }
        ensures within { IfSome result (λ p. size_of (Item.Frame p.header) ≤ left) }
    {
        let Some(frame) = anchored_frame(front, at, left) else {
            return None;
        };
        if self.admits(&frame, front) {
            Some(frame)
        } else {
            None
        }
    }

    /// The item that is read at the offset, where a look shows these bytes and `left` bytes of the
    /// file are left.
    pub(crate) fn step(&self, front: &[u8], at: u64, left: u64) -> Option<Step>
        requires many { length front.now ≡ min look_size left }
        ensures read { (file : List ℕ) → Shows file at front.now left
            → IsItemRead file self.now at result }
        ensures usable { IfSome result (λ s. admits_item self.now at s.item front.now ≡ true) }
        ensures passes { IfSome result (PassesFront front.now left) }
    {
        let Some(step) = step_at(Region::Stream, front, left) else {
            return None;
        };
        if self.admits_item(&step.item, front, at) {
            Some(step)
        } else {
            None
        }
    }

    /// The frame that is read at the offset, where a look shows these bytes and `left` bytes of the
    /// file are left.
    pub(crate) fn whole(&self, front: &[u8], at: u64, left: u64) -> Option<PlacedFrame>
        requires many { length front.now ≡ min look_size left }
        ensures frame { (file : List ℕ) → Shows file at front.now left
            → result ≡ option_and_then (frame_of_item at) (item_read file self.now at) }
        ensures offset { IfSome result (λ p. p.offset ≡ at) }
        ensures within { IfSome result (λ p. size_of (Item.Frame p.header) ≤ left) }
    {
        let Some(step) = self.step(front, at, left) else {
            return None;
        };
        frame_of(&step.item, at)
    }
}
