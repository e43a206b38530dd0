//! Reads a damaged file of a folder.
ghost use Rattle.std.specs.Prelude.{◌≡◌, ◌+◌, ◌<◌, ◌≤◌, ℕ, List, [], None, length, IfOk, IfErr, IfSome, OnOk, ◌^◌};
ghost use Rattle.outside.specs.Files.{IsFileThere};
ghost use Rattle.outside.specs.Counts.{OnlyReads};
ghost use Rattle.outside.specs.Seen.{OnFile};
ghost use Rattle.outside.specs.Feed.{IsFedFrom};
ghost use Rattle.sync_survey.specs.declared.chains.Region.TheVariants.{Front};
ghost use Rattle.sync_survey.specs.declared.survey_fault.SurveyFault.TheVariants.{NoFrame};
ghost use Rattle.sync_survey.specs.declared.items.Item.TheVariants.{Frame};
ghost use Rattle.sync_survey.specs.Items.{size_of};
ghost use Rattle.sync_survey.specs.Walk.{numbered_offset};
ghost use Rattle.sync_survey.specs.MainData.{head_area};
ghost use Rattle.sync_survey.specs.Chains.{item_chain, blocks_of};
ghost use Rattle.sync_survey.specs.SurveyFaultKinds.{HasRightNumbers};
ghost use Rattle.sync_survey.specs.Survey.{HasLength, IsWholeFrom, ReadsBy, HoldsOctets, BlocksAreLaid};
ghost use Rattle.salvage.specs.declared.usable.Role.TheVariants.{Later};
ghost use Rattle.salvage.specs.Walk.{item_read, offset_or_end};
ghost use Rattle.salvage.specs.DamagedFiles.{damaged_view, IsDamagedOf, IsDamagedFault, IsDamagedRefusal, gap_between};
ghost use Rattle.salvage.specs.Answers.{ThingAnswer, ThingsAnswer, DamagedAnswer};
ghost use Rattle.salvage.specs.Progress.{begun_class, found_view, IsBegunFile, IsDamagedReading, ReadingAdvances, IsDamagedLaidOut};
ghost use Rattle.frame_header.specs.Limits.{most_frame_length};

use crate::begun::Begun;
use crate::damaged::Damaged;
use crate::found::DamagedSoFar;
use crate::gap::Gap;
use crate::later::later_frame;
use crate::search::{first_frame, next_usable_frame};
use crate::usable::Role;
use outside::{Feed, Folder};
use std::alloc::{AllocError, Global};
use sync_survey::{
    Piece, PlacedFrame, ReservoirState, Start, Survey, SurveyFault, find_head, find_length,
    head_area, look, numbered_from, pass_front,
};

/// The gap before the first frame, if there is one.
///
/// # Errors
/// If memory runs out.
fn front_gaps(alloc: Global, start: &Start) -> Result<Vec<Gap>, AllocError>
    ensures { IfOk result (λ gaps. gaps.items ≡ gap_between start.now.front_end
        start.now.first.offset) }
{
    let mut gaps = Vec::new(alloc);
    let (offset, first) = (start.front_end, start.first.offset);
    if offset < first {
        gaps.push(Gap {
            offset,
            length: first - offset,
        })?;
    }
    Ok(gaps)
}

/// What is found up to the first frame, or up to the end of the head.
///
/// # Errors
/// If memory runs out.
fn found_first(alloc: Global, begun: &Begun, pieces: Vec<Piece>) -> Result<DamagedSoFar, AllocError>
    requires whole { begun.now.start.first.offset
        + size_of (Frame begun.now.start.first.header) ≤ 2 ^ 62 }
    ensures rows { IfOk result (λ f. f.rows.items ≡ []) }
    ensures pieces { IfOk result (λ f. f.pieces.items ≡ pieces.items) }
    ensures gaps { IfOk result (λ f. f.gaps.items ≡ gap_between begun.now.start.front_end
        begun.now.start.first.offset) }
    ensures before { IfOk result (λ f. f.before ≡ record {
      place = head_area begun.now.head;
      ended = 0;
    }) }
    ensures at { IfOk result (λ f. f.at ≡ numbered_offset begun.now.start.first begun.now.head) }
    ensures low { IfOk result (λ f. f.before.place ≤ most_frame_length) }
    ensures behind { IfOk result (λ f. begun.now.start.first.offset ≤ f.at) }
    ensures within { IfOk result (λ f. f.at ≤ begun.now.start.first.offset
        + size_of (Frame begun.now.start.first.header)) }
{
    let place = head_area(&begun.head);
    Ok(DamagedSoFar {
        rows: Vec::new(alloc),
        pieces,
        gaps: front_gaps(alloc, &begun.start)?,
        before: ReservoirState { place, ended: 0 },
        at: numbered_from(&begun.start.first, &begun.head),
    })
}

/// The offset at which a gap ends: where the next frame begins, or at the end of the file.
fn end_of(next: Option<PlacedFrame>, size: u64) -> u64
    ensures told { (file : List ℕ) → size ≡ length file → result ≡ offset_or_end file next }
    ensures within { (from : ℕ) → from ≤ size → IfSome next (IsWholeFrom from size)
        → (from ≤ result) × (result ≤ size) }
{
    match next {
        Some(frame) => frame.offset,
        None => size,
    }
}

/// What a frame after the first must be.
fn later_role(begun: &Begun) -> Role
    ensures { result ≡ Later (begun_class begun.now) }
{
    Role::Later(begun.start.first.header.class())
}

/// Keeps the gap that begins at the offset that was reached.
///
/// # Errors
/// `Read`, `Shrunk` or `Memory`.
fn read_gap<D: Folder>(
    feed: &mut Feed,
    folder: &mut D,
    name: &str,
    begun: &Begun,
    found: &mut DamagedSoFar,
) -> Result<(), SurveyFault>
    requires begun { IsBegunFile (D.seen folder.old).files name.now begun.now }
    requires fed { IsFedFrom feed.old (D.seen folder.old).files name.now }
    requires before { found.old.at < begun.now.size }
    requires none { OnFile (D.seen folder.old) name.now
        (λ bytes. item_read bytes (Later (begun_class begun.now)) found.old.at ≡ None) }
    requires reading { IsDamagedReading (D.seen folder.old).files name.now begun.now found.old }
    ensures { ThingAnswer name.now begun.now found.old found.new feed.new (D.seen folder.old)
        (D.seen folder.new) result }
{
    let role = later_role(begun);
    let next = next_usable_frame(feed, folder, name, begun.size, found.at + 1, role)?;
    let end = end_of(next, begun.size);
    found.skip(end)?;
    Ok(())
}

/// Keeps the item that is read at the offset that was reached, or the gap that begins there.
///
/// # Errors
/// `TooManyFrames` with the offset of a frame, `Read`, `Shrunk` or `Memory`.
// Most of what is read are later frames, which don't come here: this is a function of its own,
// which looks at the file again.
#[inline(never)]
fn read_other<D: Folder>(
    feed: &mut Feed,
    folder: &mut D,
    name: &str,
    begun: &Begun,
    found: &mut DamagedSoFar,
) -> Result<(), SurveyFault>
    requires begun { IsBegunFile (D.seen folder.old).files name.now begun.now }
    requires fed { IsFedFrom feed.old (D.seen folder.old).files name.now }
    requires before { found.old.at < begun.now.size }
    requires reading { IsDamagedReading (D.seen folder.old).files name.now begun.now found.old }
    ensures { ThingAnswer name.now begun.now found.old found.new feed.new (D.seen folder.old)
        (D.seen folder.new) result }
{
    let left = look(feed, folder, name, begun.size, found.at)?;
    let role = later_role(begun);
    let front = feed.bytes();
    let Some(step) = role.step(front, found.at, left) else {
        return read_gap(feed, folder, name, begun, found);
    };
    found.keep(&step.item, step.size, front)
}

/// Keeps the item that is read at the offset that was reached, or the gap that begins there.
///
/// # Errors
/// `TooManyFrames` with the offset of a frame, `Read`, `Shrunk` or `Memory`.
fn read_thing<D: Folder>(
    feed: &mut Feed,
    folder: &mut D,
    name: &str,
    begun: &Begun,
    found: &mut DamagedSoFar,
) -> Result<(), SurveyFault>
    requires begun { IsBegunFile (D.seen folder.old).files name.now begun.now }
    requires fed { IsFedFrom feed.old (D.seen folder.old).files name.now }
    requires before { found.old.at < begun.now.size }
    requires reading { IsDamagedReading (D.seen folder.old).files name.now begun.now found.old }
    ensures { ThingAnswer name.now begun.now found.old found.new feed.new (D.seen folder.old)
        (D.seen folder.new) result }
{
    let left = look(feed, folder, name, begun.size, found.at)?;
    let class = begun.start.first.header.class();
    let front = feed.bytes();
    let Some(step) = later_frame(class, front, found.at, left) else {
        return read_other(feed, folder, name, begun, found);
    };
    found.keep(&step.item, step.size, front)
}

/// Reads on to the end of the file.
///
/// # Errors
/// `TooManyFrames` with the offset of a frame, `Read`, `Shrunk` or `Memory`.
fn read_things<D: Folder>(
    feed: &mut Feed,
    folder: &mut D,
    name: &str,
    begun: &Begun,
    found: &mut DamagedSoFar,
) -> Result<(), SurveyFault>
    requires begun { IsBegunFile (D.seen folder.old).files name.now begun.now }
    requires fed { IsFedFrom feed.old (D.seen folder.old).files name.now }
    requires reading { IsDamagedReading (D.seen folder.old).files name.now begun.now found.old }
    ensures { ThingsAnswer name.now begun.now found.new (D.seen folder.old)
        (D.seen folder.new) result }
{
    while found.at < begun.size {
        read_thing(feed, folder, name, begun, found)?;
    }
    Ok(())
}

/// What was found in a file that was read to its end.
///
/// # Errors
/// `NoFrame` with the offset at which the front ends, if no frame was found besides a head.
fn damaged_by(begun: &Begun, found: DamagedSoFar) -> Result<Damaged, SurveyFault>
    ensures told { IfOk result (λ d. damaged_view d ≡ found_view begun.now found) }
    ensures some { OnOk result (found.rows.items ≡ [] → ⊥) }
    ensures none { IfErr result (λ f. (f ≡ NoFrame begun.now.start.front_end)
        × (found.rows.items ≡ [])) }
{
    if found.rows.is_empty() {
        return Err(SurveyFault::NoFrame(begun.start.front_end));
    }
    Ok(Damaged {
        survey: Survey {
            frames: found.rows,
            blocks: found.pieces,
            head: begun.head,
            start: begun.start,
            length: begun.size,
        },
        gaps: found.gaps,
    })
}

/// Finds where the file begins, and keeps the blocks of its front.
///
/// # Errors
/// `NoFrame` with the offset at which the front ends, if there is no first frame; `Read`, `Shrunk` or
/// `Memory`.
fn begin<D: Folder>(
    feed: &mut Feed,
    folder: &mut D,
    name: &str,
    size: u64,
    pieces: &mut Vec<Piece>,
) -> Result<Begun, SurveyFault>
    requires known { HasLength (D.seen folder.old).files name.now size }
    requires fed { IsFedFrom feed.old (D.seen folder.old).files name.now }
    requires none { pieces.old.items ≡ [] }
    ensures begun { IfOk result (IsBegunFile (D.seen folder.old).files name.now) }
    ensures blocks { OnOk result (OnFile (D.seen folder.old) name.now
        (λ bytes. pieces.new.items ≡ blocks_of (item_chain Front bytes 0).items)) }
    ensures laid { IfOk result (λ b. BlocksAreLaid 0 pieces.new.items b.start.front_end) }
    ensures reads { ReadsBy feed.new name.now result (D.seen folder.old) (D.seen folder.new) }
    ensures refused { IfErr result (IsDamagedRefusal name.now (D.seen folder.old).files
        (D.seen folder.old).counts (D.seen folder.new).counts) }
{
    let front_end = pass_front(feed, folder, name, size, pieces)?;
    let Some(first) = first_frame(feed, folder, name, size, front_end)? else {
        return Err(SurveyFault::NoFrame(front_end));
    };
    let head = find_head(feed, folder, name, size, &first)?;
    let start = Start { front_end, first };
    Ok(Begun { size, start, head })
}

/// What is read of a file about which this is known, with these blocks in its front.
///
/// # Errors
/// `NoFrame`, `TooManyFrames`, `Read`, `Shrunk` or `Memory`.
fn read_on<D: Folder>(
    alloc: Global,
    feed: &mut Feed,
    folder: &mut D,
    name: &str,
    begun: &Begun,
    pieces: Vec<Piece>,
) -> Result<Damaged, SurveyFault>
    requires begun { IsBegunFile (D.seen folder.old).files name.now begun.now }
    requires fed { IsFedFrom feed.old (D.seen folder.old).files name.now }
    requires blocks { OnFile (D.seen folder.old) name.now
        (λ bytes. pieces.items ≡ blocks_of (item_chain Front bytes 0).items) }
    requires laid { BlocksAreLaid 0 pieces.items begun.now.start.front_end }
    requires octets { HoldsOctets name.now (D.seen folder.old).files }
    ensures { DamagedAnswer name.now (D.seen folder.old) (D.seen folder.new) result }
{
    let Ok(mut found) = found_first(alloc, begun, pieces) else {
        return Err(SurveyFault::Memory);
    };
    read_things(feed, folder, name, begun, &mut found)?;
    damaged_by(begun, found)
}

/// Reads a damaged file. The files are unchanged.
///
/// The blocks and zero bytes with which the file begins are its front. The first frame is the
/// usable one at the offset at which the front ends; if there is none, it is the first usable one
/// after it that is anchored. From there on the file is read item by item: usable frames, blocks
/// and zero bytes. At an offset at which none of them begins whole, a gap begins; it ends where the
/// next usable frame that is anchored begins, or with the file. A frame is usable if it is whole
/// and of the class of the first, and its check word is right if it has one; the first one may be a
/// head with any check word.
///
/// # Errors
/// - `Absent`, `TooLong`, `Read`, `Shrunk` and `Memory` as for `survey`;
/// - `NoFrame` with the offset at which the front ends, if there is no frame besides a head;
/// - `TooManyFrames` with the offset of the frame with number 2,900,000, counted from 0.
pub fn read_damaged<D: Folder>(
    alloc: Global,
    folder: &mut D,
    name: &str,
) -> Result<Damaged, SurveyFault>
    ensures { DamagedAnswer name.now (D.seen folder.old) (D.seen folder.new) result }
{
    let size = find_length(folder, name)?;
    let mut feed = Feed::new(alloc)?;
    let mut pieces = Vec::new(alloc);
    let begun = begin(&mut feed, folder, name, size, &mut pieces)?;
    read_on(alloc, &mut feed, folder, name, &begun, pieces)
}
