//! What was found so far.
ghost use Rattle.std.specs.Prelude.{◌≡◌, ◌⊎◌, ◌^◌, ◌≤◌, ◌+◌, false, Ok, length, MatchResult, OnOk};
ghost use Rattle.frame_header.specs.Fields.{HeaderFields};
ghost use Rattle.sync_survey.specs.Faults.{longest_file};
ghost use Rattle.sync_survey.specs.Items.{header_front, item_front};
ghost use Rattle.sync_survey.specs.Looks.{ReachArea};
ghost use Rattle.salvage.specs.DamagedFiles.{most_frames};
ghost use Rattle.salvage.specs.JudgedFrames.{row_judged_in, state_after_frame, AddsItem, AddsGap, IsPastMost};

use crate::gap::Gap;
use frame_header::{Header, MOST_FRAMES};
use std::alloc::AllocError;
use sync_survey::{Item, Piece, ReservoirState, Row, SurveyFault};

/// The frames that were found and judged, the blocks, the gaps, the areas since the last gap, and the
/// offset up to which the file was read.
#[derive(Drop)]
pub(crate) struct DamagedSoFar {
    pub(crate) rows: Vec<Row>,
    pub(crate) pieces: Vec<Piece>,
    pub(crate) gaps: Vec<Gap>,
    pub(crate) before: ReservoirState,
    pub(crate) at: u64,
}

/// Marks the row if its frame isn't sound given the areas before it, and returns the areas before
/// the next frame.
// Later frames and all else are kept by separate functions, and clang doesn't inline what has
// several callers.
#[inline(always)]
fn mark(before: &ReservoirState, header: &Header, row: &mut Row) -> ReservoirState
    requires same { header.now ≡ row.old.header }
    requires bound { before.now.place ≤ 2 ^ 62 }
    requires unmarked { row.old.lost ≡ false }
    ensures row { row.new ≡ row_judged_in before.now row.old }
    ensures before { result ≡ state_after_frame before.now row.old }
{
    match before.judge_frame(header, row) {
        Ok(behind) if !behind.lost => behind.before,
        _ => {
            row.mark(true);
            ReservoirState {
                place: before.place + u64::from(header.area()),
                ended: before.ended,
            }
        }
    }
}

impl DamagedSoFar {
    /// Judges the frame at the offset that was reached, and keeps it. `bytes` begin with the
    /// frame's own.
    ///
    /// # Errors
    /// `TooManyFrames` with the offset of the frame, `Memory`.
    #[inline(always)]
    fn judge(&mut self, header: Header, bytes: &[u8]) -> Result<(), SurveyFault>
        requires heads { header_front bytes.now ≡ Ok header }
        requires room { ReachArea header bytes.now }
        requires early { self.old.at ≤ longest_file }
        requires bound { self.old.before.place ≤ 2 ^ 62 }
        ensures kept { MatchResult result
            (λ _. AddsItem (Item.Frame header) 0 bytes.now self.old self.new)
            (λ fault. (fault ≡ SurveyFault.Memory)
            ⊎ IsPastMost (Item.Frame header) self.old fault) }
        ensures few { OnOk result (length self.old.rows.items ≤ most_frames
            → length self.new.rows.items ≤ most_frames) }
    {
        if self.rows.len() == MOST_FRAMES as usize {
            return Err(SurveyFault::TooManyFrames(self.at));
        }
        let count = self.rows.len();
        // The row is judged in place, so that it is copied only once.
        self.rows.push(Row::read(self.at as u32, &header, bytes))?;
        let row = &mut self.rows[count];
        self.before = mark(&self.before, &header, row);
        Ok(())
    }

    /// Keeps the item at the offset that was reached. `bytes` begin with the item's own.
    ///
    /// # Errors
    /// `TooManyFrames` with the offset of a frame, `Memory`.
    #[inline(always)]
    fn keep_item(&mut self, item: &Item, bytes: &[u8]) -> Result<(), SurveyFault>
        requires heads { item.now ≡ item_front bytes.now }
        requires room { (h : HeaderFields) → item.now ≡ Item.Frame h → ReachArea h bytes.now }
        requires early { self.old.at ≤ longest_file }
        requires bound { self.old.before.place ≤ 2 ^ 62 }
        ensures kept { MatchResult result
            (λ _. AddsItem item.now 0 bytes.now self.old self.new)
            (λ fault. (fault ≡ SurveyFault.Memory) ⊎ IsPastMost item.now self.old fault) }
        ensures few { OnOk result (length self.old.rows.items ≤ most_frames
            → length self.new.rows.items ≤ most_frames) }
    {
        match *item {
            Item::Frame(header) => self.judge(header, bytes)?,
            Item::Block(block) => {
                let offset = self.at;
                self.pieces.push(Piece { offset, block })?;
            }
            _ => {}
        }
        Ok(())
    }

    /// Keeps the item at the offset that was reached, and moves on by `size` bytes. `bytes` begin
    /// with the item's own.
    ///
    /// # Errors
    /// `TooManyFrames` with the offset of a frame, `Memory`.
    #[inline(always)]
    pub(crate) fn keep(&mut self, item: &Item, size: u64, bytes: &[u8]) -> Result<(), SurveyFault>
        requires heads { item.now ≡ item_front bytes.now }
        requires room { (h : HeaderFields) → item.now ≡ Item.Frame h → ReachArea h bytes.now }
        requires bound { self.old.before.place ≤ 2 ^ 62 }
        requires short { self.old.at + size ≤ longest_file }
        ensures kept { MatchResult result
            (λ _. AddsItem item.now size bytes.now self.old self.new)
            (λ fault. (fault ≡ SurveyFault.Memory) ⊎ IsPastMost item.now self.old fault) }
        ensures few { OnOk result (length self.old.rows.items ≤ most_frames
            → length self.new.rows.items ≤ most_frames) }
    {
        self.keep_item(item, bytes)?;
        self.at += size;
        Ok(())
    }

    /// Keeps a gap from the offset that was reached to another. After it the areas count from 0 again.
    ///
    /// # Errors
    /// If memory runs out.
    pub(crate) fn skip(&mut self, to: u64) -> Result<(), AllocError>
        requires { self.old.at ≤ to }
        ensures { OnOk result (AddsGap to self.old self.new) }
    {
        self.gaps.push(Gap {
            offset: self.at,
            length: to - self.at,
        })?;
        self.before = ReservoirState { place: 0, ended: 0 };
        self.at = to;
        Ok(())
    }
}
