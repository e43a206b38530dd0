//! Items that follow end to end.
ghost use Rattle.std.specs.Prelude.{◌≡◌, ℕ, List, ◌≤◌, ◌==◌, length, IfSome};
ghost use Rattle.std.specs.List.{prefix_len};
ghost use Rattle.sync_survey.specs.Items.{size_of, item_front};
ghost use Rattle.sync_survey.specs.Chains.{belongs};
ghost use Rattle.sync_survey.specs.Looks.{Shows, IsStep, PassesFront};

use crate::items::{Item, item_front};

/// A part of a file, by the items that it consists of.
#[derive(Clone, Copy, Debug, PartialEq, Eq)]
pub enum Region {
    /// The front, before the first frame: blocks and zero bytes.
    Front,
    /// Everything from the first frame on: frames, blocks and zero bytes.
    Stream,
}

/// Whether the part may have such an item.
fn belongs(part: Region, item: &Item) -> bool
    ensures { result ≡ belongs part item.now }
{
    match item {
        Item::Block(_) | Item::Zero => true,
        Item::Frame(_) => part == Region::Stream,
        Item::Free | Item::End | Item::Nothing => false,
    }
}

/// A whole item, and how many bytes are passed with it: its own, or for a zero byte all zero bytes
/// that were seen.
#[derive(Clone, Copy)]
pub struct Step {
    pub item: Item,
    pub size: u64,
}

/// How many zero bytes the bytes begin with.
fn zeros(bytes: &[u8]) -> usize
    ensures count { result ≡ prefix_len (λ b. b == 0) bytes.now }
    ensures within { result ≤ length bytes.now }
{
    bytes.iter().take_while(|byte| **byte == 0).count()
}

/// How many bytes are passed with the item of this size with which the bytes begin.
fn passed(item: &Item, size: u64, front: &[u8]) -> u64
    requires { size ≡ size_of item.now }
    ensures zeros { item.now ≡ Item.Zero → result ≡ prefix_len (λ b. b == 0) front.now }
    ensures size { (item.now ≡ Item.Zero → ⊥) → result ≡ size_of item.now }
{
    match item {
        Item::Zero => zeros(front) as u64,
        _ => size,
    }
}

/// The item of the part with which the bytes of a look begin, if it is whole. `left` is how many bytes the
/// file has from there on.
#[inline(always)]
pub fn step_at(part: Region, front: &[u8], left: u64) -> Option<Step>
    requires { length front.now ≤ left }
    ensures step { (file : List ℕ) (at : ℕ) → Shows file at front.now left
        → IsStep part file at result }
    ensures passes { IfSome result (PassesFront front.now left) }
{
    let item = item_front(front);
    if !belongs(part, &item) {
        return None;
    }
    let own = item.size();
    if own > left {
        return None;
    }
    let size = passed(&item, own, front);
    Some(Step { item, size })
}
