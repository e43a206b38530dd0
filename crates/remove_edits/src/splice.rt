//! How the parts that stay join one another.
ghost use Rattle.std.specs.Prelude.{◌≡◌, ◌<◌, ◌≤◌, ◌+◌, ◌-◌, ◌++◌, [], ◌∷◌, drop, length, take, IfOk, OnOk};
ghost use Rattle.seam_plan.specs.PartSplices.{IsJointOfNeeds, item_needs, joint_items};
ghost use Rattle.sync_survey.specs.Faults.{survey_view};
ghost use Rattle.laying.specs.NeedsFit.{IsPlacedSurvey};
ghost use Rattle.commands.specs.SingleOutput.{most_frames};
ghost use Rattle.remove_edits.specs.Removed.{part_needs_of};
ghost use Rattle.remove_edits.specs.Ready.{CanBeSplice, HasSpliceTo, IsPartIn, IsSpliceOfParts, joint_places, written_last};

use arrayvec::ArrayVec;
use exact_span::WrittenFrames;
use laying::append_needs;
use seam_plan::{Part, PartJoint, PartSplice, in_slot};
use slot_plan::Need;
use std::alloc::{AllocError, Global};
use sync_survey::Survey;

/// The splice of the parts so far: what its frames need, in the slots in which they join and with the
/// lead-ins among them; the places of these lead-ins, counted from 0; and where the parts are
/// written, the lead-in before the whole splice left out.
#[derive(Drop)]
pub(crate) struct DecidedSplice {
    pub needs: Vec<Need>,
    pub lead_ins: ArrayVec<u32, 50>,
    pub written: ArrayVec<WrittenFrames, 51>,
}

impl DecidedSplice {
    /// Adds the frames of a part, in their own slots.
    ///
    /// # Errors
    /// If memory runs out.
    fn append(&mut self, survey: &Survey, part: &Part) -> Result<(), AllocError>
        requires { IsPartIn (survey_view survey.now) part.now }
        ensures needs { OnOk result (self.new.needs.items
            ≡ self.old.needs.items ++ part_needs_of (survey_view survey.now) part.now) }
        ensures lead_ins { self.new.lead_ins ≡ self.old.lead_ins }
        ensures written { self.new.written ≡ self.old.written }
    {
        let rows = &survey.frames()[part.from as usize..part.to as usize];
        append_needs(rows, &mut self.needs)
    }

    /// Notes that the last frames are those of this part.
    fn note(&mut self, part: &Part)
        requires ordered { part.now.from ≤ part.now.to }
        requires there { part.now.to - part.now.from ≤ length self.old.needs.items }
        requires few { length self.old.needs.items ≤ most_frames }
        requires room { length self.old.written.items ≤ 50 }
        ensures needs { self.new.needs ≡ self.old.needs }
        ensures lead_ins { self.new.lead_ins ≡ self.old.lead_ins }
        ensures written { self.new.written.items
            ≡ self.old.written.items ++ written_last (length self.old.needs.items) part.now ∷ [] }
    {
        let at = self.needs.len() as u32 - (part.to - part.from);
        self.written.push(WrittenFrames {
            from: part.from,
            to: part.to,
            at,
        });
    }

    /// Puts the first frame from place `from` on into the slot in which it joins, or a lead-in
    /// before it.
    ///
    /// # Errors
    /// If memory runs out.
    fn join(&mut self, joint: &PartJoint, from: usize) -> Result<(), AllocError>
        requires within { from < length self.old.needs.items }
        requires few { length self.old.needs.items ≤ most_frames }
        requires room { length self.old.lead_ins.items ≤ 49 }
        ensures needs { OnOk result (self.new.needs.items ≡ take from self.old.needs.items
            ++ item_needs (joint_items joint.now (drop from self.old.needs.items))) }
        ensures lead_ins { OnOk result (self.new.lead_ins.items
            ≡ self.old.lead_ins.items ++ joint_places from joint.now) }
        ensures written { self.new.written ≡ self.old.written }
    {
        match *joint {
            PartJoint::InSlot(slot) => self.needs[from] = in_slot(&self.needs[from], slot),
            PartJoint::Led(header) => {
                self.needs.insert(from, Need { header, bytes: 0 })?;
                self.lead_ins.push(from as u32);
            }
        }
        Ok(())
    }
}

/// Adds the next part to the splice.
///
/// # Errors
/// If memory runs out.
fn add(
    decided: &mut DecidedSplice,
    splice: &mut PartSplice,
    survey: &Survey,
    parts: &[Part],
    number: usize,
) -> Result<(), AllocError>
    requires can { CanBeSplice (survey_view survey.now) parts.now }
    requires within { (1 ≤ number) × (number < length parts.now) }
    requires before { HasSpliceTo (survey_view survey.now) (take number parts.now) splice.old
        decided.old }
    ensures { OnOk result
        (HasSpliceTo (survey_view survey.now) (take (number + 1) parts.now) splice.new
        decided.new) }
{
    let part = &parts[number];
    let from = decided.needs.len();
    decided.append(survey, part)?;
    let joint = splice.join(&decided.needs[from..]);
    decided.join(&joint, from)?;
    decided.note(part);
    Ok(())
}

/// The frames of the first part, which begin the splice.
///
/// # Errors
/// If memory runs out.
fn begin(alloc: Global, survey: &Survey, part: &Part) -> Result<DecidedSplice, AllocError>
    requires part { IsPartIn (survey_view survey.now) part.now }
    requires some { part.now.from < part.now.to }
    requires few { length (survey_view survey.now).frames ≤ most_frames }
    ensures { IfOk result
        (λ decided. IsSpliceOfParts (survey_view survey.now) (part.now ∷ []) decided) }
{
    let mut decided = DecidedSplice {
        needs: Vec::new(alloc),
        lead_ins: ArrayVec::new(),
        written: ArrayVec::new(),
    };
    decided.append(survey, part)?;
    decided.note(part);
    Ok(decided)
}

/// The splice of these parts of a surveyed file, at least one.
///
/// # Errors
/// If memory runs out.
pub(crate) fn decide(
    alloc: Global,
    survey: &Survey,
    parts: &[Part],
) -> Result<DecidedSplice, AllocError>
    requires { CanBeSplice (survey_view survey.now) parts.now }
    ensures { IfOk result (λ decided. IsSpliceOfParts (survey_view survey.now) parts.now decided) }
{
    let mut decided = begin(alloc, survey, &parts[0])?;
    let mut splice = PartSplice::begin(survey.class(), decided.needs.as_slice());
    for number in 1..parts.len() {
        add(&mut decided, &mut splice, survey, parts, number)?;
    }
    Ok(decided)
}
