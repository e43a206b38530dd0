//! What was found so far and judged.
ghost use Rattle.std.specs.Prelude.{◌≡◌, ◌⊎◌, ◌^◌, ◌<◌, ◌≤◌, length, min, Ok, MatchResult};
ghost use Rattle.frame_header.specs.Fields.{HeaderFields};
ghost use Rattle.sync_survey.specs.Faults.{longest_file};
ghost use Rattle.sync_survey.specs.Items.{header_front, item_front};
ghost use Rattle.sync_survey.specs.Looks.{look_size, ReachArea, KeepsItem, IsFrameFault, PassesItem, IsNotPassed};

use crate::chains::{Region, step_at};
use crate::items::{Item, header_of_class, is_same_class, stop_fault};
use crate::places::Piece;
use crate::rows::{Limit, ReservoirState, Row};
use crate::survey_fault::SurveyFault;
use frame_header::{Class, Header};

/// The frames that were judged and have no fault, the blocks that were met, and the areas so far.
#[derive(Drop)]
pub(crate) struct SurveySoFar {
    pub(crate) rows: Vec<Row>,
    pub(crate) pieces: Vec<Piece>,
    pub(crate) before: ReservoirState,
}

impl SurveySoFar {
    /// Judges the frame at the offset, and keeps it if it has no fault, marked if it is lost.
    /// `bytes` begin with the frame's own.
    ///
    /// # Errors
    /// The first fault of the frame; `Memory` if memory runs out.
    // The walk is instantiated for each folder type, and clang doesn't inline what has several
    // callers.
    #[inline(always)]
    fn judge(
        &mut self,
        offset: u64,
        header: Header,
        bytes: &[u8],
        class: Class,
        allowed: u32,
    ) -> Result<(), SurveyFault>
        requires heads { header_front bytes.now ≡ Ok header }
        requires room { ReachArea header bytes.now }
        requires early { offset ≤ longest_file }
        requires bound { self.old.before.place ≤ 2 ^ 62 }
        ensures { MatchResult result
            (λ _. KeepsItem class allowed offset (Item.Frame header) bytes.now self.old self.new)
            (λ fault. (fault ≡ SurveyFault.Memory)
            ⊎ IsFrameFault class allowed offset (Item.Frame header) bytes.now self.old fault) }
    {
        if !is_same_class(header.class(), class) {
            return Err(SurveyFault::Mixed(offset));
        }
        let count = self.rows.len();
        // The row is judged in place, so that it is copied only once.
        self.rows
            .push(Row::read_in(class, offset as u32, &header, bytes))?;
        let row = &mut self.rows[count];
        let behind = self.before.step(
            class,
            &header,
            row,
            bytes,
            &Limit {
                count: count as u64,
                allowed: u64::from(allowed),
            },
        )?;
        row.mark(behind.lost);
        self.before = behind.before;
        Ok(())
    }

    /// Keeps the item at the offset if it is a frame without fault or a block. `bytes` begin with
    /// the item's own.
    ///
    /// # Errors
    /// The first fault of a frame; `Memory` if memory runs out.
    #[inline(always)]
    pub(crate) fn keep(
        &mut self,
        offset: u64,
        item: &Item,
        bytes: &[u8],
        class: Class,
        allowed: u32,
    ) -> Result<(), SurveyFault>
        requires heads { item.now ≡ item_front bytes.now }
        requires room { (h : HeaderFields) → item.now ≡ Item.Frame h → ReachArea h bytes.now }
        requires early { offset ≤ longest_file }
        requires bound { self.old.before.place ≤ 2 ^ 62 }
        ensures { MatchResult result
            (λ _. KeepsItem class allowed offset item.now bytes.now self.old self.new)
            (λ fault. (fault ≡ SurveyFault.Memory)
            ⊎ IsFrameFault class allowed offset item.now bytes.now self.old fault) }
    {
        match *item {
            Item::Frame(header) => self.judge(offset, header, bytes, class, allowed)?,
            Item::Block(block) => self.pieces.push(Piece { offset, block })?,
            _ => {}
        }
        Ok(())
    }

    /// Passes the item of the stream at the offset, where a look shows these bytes, and returns how
    /// many bytes it has, or how many zero bytes were seen. `left` is how many bytes the file has
    /// from there on.
    ///
    /// # Errors
    /// Why the walk stops there, if no whole item is there; otherwise as for `keep`.
    #[inline(never)]
    fn pass_other(
        &mut self,
        offset: u64,
        bytes: &[u8],
        left: u64,
        class: Class,
        allowed: u32,
    ) -> Result<u64, SurveyFault>
        requires many { length bytes.now ≡ min look_size left }
        requires some { 0 < left }
        requires early { offset ≤ longest_file }
        requires bound { self.old.before.place ≤ 2 ^ 62 }
        ensures { MatchResult result
            (λ size. PassesItem class allowed offset bytes.now left self.old self.new size)
            (λ fault. IsNotPassed class allowed offset bytes.now left self.old fault) }
    {
        let Some(step) = step_at(Region::Stream, bytes, left) else {
            return Err(stop_fault(bytes, offset));
        };
        self.keep(offset, &step.item, bytes, class, allowed)?;
        Ok(step.size)
    }

    /// As `pass_other`, but faster for a frame of the class.
    // The walk is instantiated for each folder type, and clang doesn't inline what has several
    // callers. Anything but a whole frame of the class is left to a function of its own, so that
    // none of it takes up registers here.
    #[inline(always)]
    pub(crate) fn pass(
        &mut self,
        offset: u64,
        bytes: &[u8],
        left: u64,
        class: Class,
        allowed: u32,
    ) -> Result<u64, SurveyFault>
        requires many { length bytes.now ≡ min look_size left }
        requires some { 0 < left }
        requires early { offset ≤ longest_file }
        requires bound { self.old.before.place ≤ 2 ^ 62 }
        ensures { MatchResult result
            (λ size. PassesItem class allowed offset bytes.now left self.old self.new size)
            (λ fault. IsNotPassed class allowed offset bytes.now left self.old fault) }
    {
        if let Some(header) = header_of_class(class, bytes) {
            let size = u64::from(class.length_of(header.slot));
            if size <= left {
                self.judge(offset, header, bytes, class, allowed)?;
                return Ok(size);
            }
        }
        self.pass_other(offset, bytes, left, class, allowed)
    }
}
