//! Finds the next usable frame.
ghost use Rattle.std.specs.Prelude.{◌≡◌, ◌+◌, ◌^◌, ◌<◌, ◌≤◌, ℕ, List, true, false, length, IfOk, IfErr, IfSome};
ghost use Rattle.outside.specs.Seen.{OnFile};
ghost use Rattle.outside.specs.Feed.{IsFedFrom};
ghost use Rattle.sync_survey.specs.Survey.{HasLength, IsWholeFrom, ReadsBy};
ghost use Rattle.salvage.specs.UsableFrames.{next_usable_frame};
ghost use Rattle.salvage.specs.Walk.{first_frame};
ghost use Rattle.salvage.specs.DamagedFiles.{IsDamagedRefusal};
ghost use Rattle.salvage.specs.Steps.{may_begin_header, HasNoHeader, IsRuledOut, HasNoUsableFrame};

use crate::raw_header::{has_wrong_crc, may_anchor, raw_frame_length};
use crate::usable::Role;
use outside::{Feed, Folder};
use sync_survey::{
    PlacedFrame, SurveyFault, bytes_from, header_front, is_anchor, item_front, look,
};

/// How many bytes of a look are searched at once: 32 are seen after each of them.
const REACH: usize = 4_064;

/// Whether a header may begin with these two bytes, going by eight bits of the sync word and the
/// two of the layer.
fn may_begin_header(first: u8, second: u8) -> bool
    ensures { result ≡ may_begin_header first second }
{
    first == 0xff && second / 2 % 4 == 1
}

/// Whether the bytes from this place on rule out that a usable anchored frame begins there: no
/// anchor can be at its end, or its check word is wrong. If this is false, there may be such a
/// frame or none.
// It decodes no header, so a search passes most places by a few bytes.
fn is_ruled_out_by_bytes(front: &[u8], place: usize) -> bool
    requires within { place < length front.now }
    ensures { result ≡ true → IsRuledOut front.now place }
{
    let own = &front[place..];
    if own.len() < 4 {
        return false;
    }
    let size = raw_frame_length(own[1], own[2]);
    if place + size > REACH || size + 4 > own.len() {
        return false;
    }
    !may_anchor(own, &own[size..]) || has_wrong_crc(own, size)
}

/// Whether a usable anchored frame may be at this place of a look at the offset. This is judged if
/// the look shows all of the frame and the 32 bytes after it; otherwise it may be.
#[inline(never)]
fn may_be_usable_by_header(role: &Role, front: &[u8], place: usize, offset: u64) -> bool
    requires within { place < 2 ^ 32 }
    requires early { offset < 2 ^ 32 }
    ensures { result ≡ false → HasNoUsableFrame role.now offset front.now place }
{
    let bytes = bytes_from(front, place);
    let Ok(header) = header_front(bytes) else {
        return false;
    };
    let end = place + header.length() as usize;
    if end > REACH || end > front.len() {
        return true;
    }
    let offset = offset + place as u64;
    if !role.admits(&PlacedFrame { offset, header }, bytes) {
        return false;
    }
    is_anchor(header.class(), &item_front(bytes_from(front, end)))
}

/// Whether a usable anchored frame may be at this place of a look at the offset.
fn may_be_usable(role: &Role, front: &[u8], place: usize, offset: u64) -> bool
    requires within { place < length front.now }
    requires few { place < 2 ^ 32 }
    requires early { offset < 2 ^ 32 }
    ensures { result ≡ false → HasNoUsableFrame role.now offset front.now place }
{
    !is_ruled_out_by_bytes(front, place) && may_be_usable_by_header(role, front, place, offset)
}

/// The first place of a look, from `from` on and before `to`, at which a header may begin; `to` if there is
/// none.
fn find_begin(front: &[u8], from: usize, to: usize) -> usize
    requires within { to < length front.now }
    requires ordered { from ≤ to }
    ensures low { from ≤ result }
    ensures high { result ≤ to }
    ensures none { (k : ℕ) → from ≤ k → k < result → HasNoHeader front.now k }
{
    for at in from..to {
        if may_begin_header(front[at], front[at + 1]) {
            return at;
        }
    }
    to
}

/// The next place of a look at the offset, after its first byte, at which a usable anchored frame may be, or
/// up to which the look was searched: from 1 to 4,064.
fn distance_to_candidate(role: &Role, front: &[u8], offset: u64) -> u64
    requires early { offset < 2 ^ 32 }
    ensures some { 0 < result }
    ensures few { result ≤ 4064 }
    ensures none { (k : ℕ) → 0 < k → k < result → HasNoUsableFrame role.now offset front.now k }
{
    let end = front.len().saturating_sub(1).min(REACH);
    let mut at = 1;
    while at < end {
        at = find_begin(front, at, end);
        if at == end || may_be_usable(role, front, at, offset) {
            return at as u64;
        }
        at += 1;
    }
    at as u64
}

/// The usable anchored frame at the smallest offset from `from` on.
///
/// # Errors
/// `Read` or `Shrunk` if the file can't be read.
pub(crate) fn next_usable_frame<D: Folder>(
    feed: &mut Feed,
    folder: &mut D,
    name: &str,
    size: u64,
    from: u64,
    role: Role,
) -> Result<Option<PlacedFrame>, SurveyFault>
    requires known { HasLength (D.seen folder.old).files name.now size }
    requires fed { IsFedFrom feed.old (D.seen folder.old).files name.now }
    requires early { from ≤ size + 1 }
    ensures next { IfOk result (λ o. OnFile (D.seen folder.old) name.now
        (λ bytes. o ≡ next_usable_frame bytes role from)) }
    ensures placed { IfOk result (λ o. IfSome o (IsWholeFrom from size)) }
    ensures reads { ReadsBy feed.new name.now result (D.seen folder.old) (D.seen folder.new) }
    ensures refused { IfErr result (IsDamagedRefusal name.now (D.seen folder.old).files
        (D.seen folder.old).counts (D.seen folder.new).counts) }
{
    let mut at = from;
    while at < size {
        let left = look(feed, folder, name, size, at)?;
        if let Some(frame) = role.anchored(feed.bytes(), at, left) {
            return Ok(Some(frame));
        }
        at += distance_to_candidate(&role, feed.bytes(), at);
    }
    Ok(None)
}

/// The first frame of a file whose front ends at this offset.
///
/// # Errors
/// `Read` or `Shrunk` if the file can't be read.
pub(crate) fn first_frame<D: Folder>(
    feed: &mut Feed,
    folder: &mut D,
    name: &str,
    size: u64,
    front_end: u64,
) -> Result<Option<PlacedFrame>, SurveyFault>
    requires known { HasLength (D.seen folder.old).files name.now size }
    requires fed { IsFedFrom feed.old (D.seen folder.old).files name.now }
    requires within { front_end ≤ size }
    ensures first { IfOk result (λ o. OnFile (D.seen folder.old) name.now
        (λ bytes. o ≡ first_frame bytes front_end)) }
    ensures placed { IfOk result (λ o. IfSome o (IsWholeFrom front_end size)) }
    ensures reads { ReadsBy feed.new name.now result (D.seen folder.old) (D.seen folder.new) }
    ensures refused { IfErr result (IsDamagedRefusal name.now (D.seen folder.old).files
        (D.seen folder.old).counts (D.seen folder.new).counts) }
{
    let left = look(feed, folder, name, size, front_end)?;
    if let Some(frame) = Role::First.whole(feed.bytes(), front_end, left) {
        return Ok(Some(frame));
    }
    next_usable_frame(feed, folder, name, size, front_end + 1, Role::First)
}
