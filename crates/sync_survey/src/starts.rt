//! Where the stream of frames begins.
ghost use Rattle.std.specs.Prelude.{◌≡◌, ℕ, List, ◌+◌, ◌-◌, ◌≤◌, length, drop, Ok, IfOk, IfErr, IfSome, MatchOption};
ghost use Rattle.outside.specs.Seen.{OnFile};
ghost use Rattle.outside.specs.Feed.{IsFedFrom};
ghost use Rattle.sync_survey.specs.Items.{size_of, item_front};
ghost use Rattle.sync_survey.specs.Start.{is_anchor, anchored_frame, first_anchored, longest_junk, start_after_junk, start_at, front_end_of, start_of};
ghost use Rattle.sync_survey.specs.Looks.{Shows};
ghost use Rattle.sync_survey.specs.SurveyFaultKinds.{RefusesRightly};
ghost use Rattle.sync_survey.specs.Survey.{HasLength, IsWholeFrom, ReadsBy, IsEarlyRefusal};

use crate::items::{Item, is_same_class, item_front};
use crate::looks::look;
use crate::places::{PlacedFrame, Start};
use crate::survey_fault::SurveyFault;
use frame_header::Class;
use outside::{Feed, Folder};

/// The greatest length of junk in bytes.
const LONGEST_JUNK: u64 = 65_536;

/// Whether the item may be at the end of an anchored frame of the class: a header of the class, a block, or
/// the end of the file.
pub fn is_anchor(class: Class, item: &Item) -> bool
    ensures { result ≡ is_anchor class item.now }
{
    match item {
        Item::Frame(header) => is_same_class(header.class(), class),
        Item::Block(_) | Item::End => true,
        Item::Free | Item::Zero | Item::Nothing => false,
    }
}

/// The bytes from a place on; none if it is past their end.
pub fn bytes_from(bytes: &[u8], place: usize) -> &[u8]
    ensures { result.now ≡ drop place bytes.now }
{
    bytes.get(place..).unwrap_or(&[])
}

/// The anchored frame at the offset, if there is one, where a look shows these bytes and `left`
/// bytes of the file are left. Such a frame is whole, and at its end there is a header of its
/// class, the beginning of a block, or the end of the file.
#[tactic(auto, unfolding(crate::specs::Start::anchored_frame))]
pub fn anchored_frame(front: &[u8], offset: u64, left: u64) -> Option<PlacedFrame>
    ensures frame { (file : List ℕ) → Shows file offset front.now left
        → result ≡ anchored_frame file offset }
    ensures offset { IfSome result (λ p. p.offset ≡ offset) }
    ensures header { IfSome result (λ p. item_front front.now ≡ Item.Frame p.header) }
    ensures within { IfSome result (λ p. size_of (Item.Frame p.header) ≤ left) }
{
    let Item::Frame(header) = item_front(front) else {
        return None;
    };
    let length = header.length();
    if u64::from(length) > left {
        return None;
    }
    let behind = item_front(bytes_from(front, length as usize));
    if !is_anchor(header.class(), &behind) {
        return None;
    }
    Some(PlacedFrame { offset, header })
}

/// The start, given the item at an offset where `left` bytes of the file are left, or its fault;
/// `None` if junk begins there.
fn start_here(item: &Item, offset: u64, left: u64) -> Option<Result<Start, SurveyFault>>
    ensures start { (file : List ℕ) → left ≡ length file - offset
        → MatchOption result (start_at file offset item.now ≡ start_after_junk offset
        (first_anchored longest_junk file (offset + 1)))
        (λ r. start_at file offset item.now ≡ r) }
    ensures refused { IfSome result (λ r. IfErr r RefusesRightly) }
    ensures first { IfSome result (λ r. IfOk r
        (λ s. (s.front_end ≡ offset) × (s.first.offset ≡ offset)
        × (item.now ≡ Item.Frame s.first.header) × (size_of item.now ≤ left))) }
{
    match *item {
        Item::Frame(header) if item.size() <= left => Some(Ok(Start {
            front_end: offset,
            first: PlacedFrame { offset, header },
        })),
        Item::Frame(_) | Item::Block(_) => Some(Err(SurveyFault::Truncated(offset))),
        Item::Free => Some(Err(SurveyFault::FreeFormat(offset))),
        Item::Zero | Item::End | Item::Nothing => None,
    }
}

/// The first anchored frame at one of the 65,536 offsets from `from` on, if there is one.
///
/// # Errors
/// `Read` or `Shrunk` if the file can't be read.
fn first_anchored<D: Folder>(
    feed: &mut Feed,
    folder: &mut D,
    name: &str,
    size: u64,
    from: u64,
) -> Result<Option<PlacedFrame>, SurveyFault>
    requires known { HasLength (D.seen folder.old).files name.now size }
    requires fed { IsFedFrom feed.old (D.seen folder.old).files name.now }
    requires early { from ≤ size + 1 }
    ensures first { IfOk result (λ o. OnFile (D.seen folder.old) name.now (λ bytes. o
        ≡ first_anchored longest_junk bytes from)) }
    ensures placed { IfOk result (λ o. IfSome o (IsWholeFrom from size)) }
    ensures reads { ReadsBy feed.new name.now result (D.seen folder.old) (D.seen folder.new) }
    ensures refused { IfErr result (IsEarlyRefusal name.now (D.seen folder.old)
        (D.seen folder.new)) }
{
    for at in from..size.min(from + LONGEST_JUNK) {
        let left = look(feed, folder, name, size, at)?;
        if let Some(first) = anchored_frame(feed.bytes(), at, left) {
            return Ok(Some(first));
        }
    }
    Ok(None)
}

/// Where the stream of frames begins. `front_end` is where the front of the file ends. A frame
/// there is the first one. Otherwise the bytes from there on are junk, at most 65,536 of them, and
/// the first frame is the anchored one at the smallest offset from the next byte on.
///
/// # Errors
/// `Truncated` if a block or a frame that begins there goes past the end of the file; `FreeFormat`
/// if a header of free format is there; `NoFrame` if no anchored frame follows; `Read` or `Shrunk`
/// if the file can't be read.
#[tactic(auto, unfolding(crate::specs::Start::start_of))]
pub(crate) fn find_start<D: Folder>(
    feed: &mut Feed,
    folder: &mut D,
    name: &str,
    size: u64,
    front_end: u64,
) -> Result<Start, SurveyFault>
    requires known { HasLength (D.seen folder.old).files name.now size }
    requires fed { IsFedFrom feed.old (D.seen folder.old).files name.now }
    requires within { front_end ≤ size }
    requires front { OnFile (D.seen folder.old) name.now (λ bytes. front_end ≡ front_end_of bytes) }
    ensures start { IfOk result (λ s. OnFile (D.seen folder.old) name.now
        (λ bytes. start_of bytes ≡ Ok s)) }
    ensures whole { IfOk result (λ s. s.first.offset + size_of (Item.Frame s.first.header) ≤ size) }
    ensures junk { IfOk result (λ s. (s.front_end ≡ front_end) × (front_end ≤ s.first.offset)) }
    ensures reads { ReadsBy feed.new name.now result (D.seen folder.old) (D.seen folder.new) }
    ensures refused { IfErr result (IsEarlyRefusal name.now (D.seen folder.old)
        (D.seen folder.new)) }
{
    let left = look(feed, folder, name, size, front_end)?;
    if let Some(start) = start_here(&item_front(feed.bytes()), front_end, left) {
        return start;
    }
    match first_anchored(feed, folder, name, size, front_end + 1)? {
        Some(first) => Ok(Start { front_end, first }),
        None => Err(SurveyFault::NoFrame(front_end)),
    }
}
