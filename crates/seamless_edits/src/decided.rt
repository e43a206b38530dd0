//! The decision of a join without seams: which frames of each input are left out.
ghost use Rattle.std.specs.Prelude.{◌≡◌, ◌+◌, ◌<◌, ◌≤◌, ◌++◌, ◌∷◌, List, length, map, take, drop, IfOk, IfErr, IfSome, OnOk};
ghost use Rattle.outside.specs.Seen.{OnlyRead};
ghost use Rattle.frame_header.specs.Fields.{ClassFields};
ghost use Rattle.frame_header.specs.Tables.{window_of};
ghost use Rattle.exact_span.specs.PlayedPositions.{counted_positions, AreCounted};
ghost use Rattle.slot_plan.specs.Parts.{AreNeedsOfClass};
ghost use Rattle.slot_plan.specs.FreeBytes.{FitsBehind, needs_with_first_slot};
ghost use Rattle.seam_plan.specs.Frames.{SpliceFrame, Brought, needs_of};
ghost use Rattle.seam_plan.specs.Seams.{left_out_count, front_left_out_count};
ghost use Rattle.seam_plan.specs.Decisions.{joined_needs};
ghost use Rattle.sync_survey.specs.Faults.{survey_view};
ghost use Rattle.joined_inputs.specs.Inputs.{input_view, input_names, HasJoinNumbers};
ghost use Rattle.commands.specs.SingleOutput.{most_frames};
ghost use Rattle.seamless_edits.specs.Reading.{AreHeld, IsInputReadFault, StopsAmongInputs};
ghost use Rattle.seamless_edits.specs.Sounds.{AreOfOneClass};
ghost use Rattle.seamless_edits.specs.Deciding.{input_needs, CanBeginSplice, HasBegunSplice, BringsNeeds, CanBeDecided, IsNextInput, IsSharedOverlap, IsDecidingTo, IsSpliceDecided, splice_needs, left_out_of, from_places};

use crate::beginnings::Beginning;
use crate::sounds::sound_alike;
use commands::EditFault;
use exact_span::{Overlap, Played};
use frame_header::{Class, Slot};
use joined_inputs::{JoinInput, Stopped, input_at};
use laying::append_needs;
use outside::Folder;
use reservoir::Window;
use seam_plan::{FramePlace, Input, Joint, Run, front_left_out};
use slot_plan::Need;
use std::alloc::{AllocError, Global};
use sync_survey::Survey;

/// What an input of this class brings whose frames have these needs.
fn brought<'a>(class: Class, needs: &'a [Need], beginning: &Beginning) -> Input<'a>
    requires { length needs.now ≤ most_frames }
    ensures needs { result.needs.now ≡ needs.now }
    ensures blank { result.blank ≡ beginning.now.blank }
    ensures played { result.played ≡ counted_positions beginning.now.head class (length needs.now) }
    ensures counted { IfSome result.played (AreCounted class (length needs.now)) }
{
    Input {
        needs,
        blank: beginning.blank,
        played: Played::counted(beginning.head.as_ref(), class, needs.len() as u32),
    }
}

/// Puts the first of these frames into this slot, if there is one.
fn put_slot(slot: Slot, needs: &mut [Need])
    ensures { needs.new ≡ needs_with_first_slot slot needs.old }
{
    if !needs.is_empty() {
        let first = &mut needs[0];
        first.header.slot = slot;
    }
}

/// Removes `count` needs, from index `from` on.
fn remove_needs(from: usize, count: usize, needs: &mut Vec<Need>)
    requires { from + count ≤ length needs.old.items }
    ensures { needs.new.items ≡ take from needs.old.items ++ drop (from + count) needs.old.items }
{
    needs.drain(from..from + count);
}

/// Removes the needs of the frames that are left out at the front of an input, whose needs begin
/// at index `from`, and puts the first of its other frames into the slot in which it joins the splice.
fn join_needs(joint: &Joint, from: usize, needs: &mut Vec<Need>)
    requires out { from + left_out_count joint.now.seam ≤ length needs.old.items }
    ensures { needs.new.items ≡ take from needs.old.items
        ++ joined_needs joint.now.slot
        (drop (left_out_count joint.now.seam) (drop from needs.old.items)) }
{
    remove_needs(from, joint.seam.left_out() as usize, needs);
    if let Some(slot) = joint.slot {
        put_slot(slot, &mut needs.as_mut_slice()[from..]);
    }
}

/// The frames that the input with the number `number` shares with the one before it, if those
/// of them that have to be alike match the last frames of the splice.
///
/// # Errors
/// `Read` or `Shrunk` if an input can't be read.
fn alike<D: Folder>(
    folder: &mut D,
    inputs: &[JoinInput<'_>],
    splice: &Run,
    number: u32,
    input: &Input<'_>,
    window: &mut Window,
) -> Result<Option<Overlap>, Stopped>
    requires held { AreHeld (D.seen folder.old).files (map input_view inputs.now) }
    requires one { AreOfOneClass (map input_view inputs.now) }
    requires next { IsNextInput (map input_view inputs.now) number splice.now input.now }
    ensures within { IfOk result (λ alike. IfSome alike
        (λ o. o.frames ≤ length input.now.needs.now)) }
    ensures alike { IfOk result (IsSharedOverlap (D.seen folder.old).files
        (map input_view inputs.now) number splice.now input.now) }
    ensures stopped { IfErr result (StopsAmongInputs (input_names (map input_view inputs.now))
        (D.seen folder.old).files (D.seen folder.old).counts (D.seen folder.new).counts) }
    ensures reads { OnlyRead result (D.seen folder.old) (D.seen folder.new) }
{
    let Some(overlap) = splice.overlap(input) else {
        return Ok(None);
    };
    let count = overlap.frames - overlap.first_alike;
    let Some(places) = splice.last(count as usize) else {
        return Ok(None);
    };
    let mut frame = overlap.first_alike;
    for place in places {
        let other = FramePlace {
            input: number,
            frame,
        };
        if !sound_alike(folder, inputs, *place, other, window)? {
            return Ok(None);
        }
        frame += 1;
    }
    Ok(Some(overlap))
}

/// The decision so far: what becomes of each later input, the splice, and the needs of its frames, in
/// the slots in which they joined; and the memory in which frames are compared.
#[derive(Drop)]
struct Deciding {
    joints: Vec<Joint>,
    splice: Run,
    needs: Vec<Need>,
    window: Window,
}

impl Deciding {
    /// Begins the splice with all frames of the first input.
    ///
    /// # Errors
    /// If memory runs out.
    fn begin(alloc: Global, survey: &Survey, beginning: &Beginning) -> Result<Deciding, AllocError>
        requires { CanBeginSplice (survey_view survey.now) }
        ensures { IfOk result (HasBegunSplice (survey_view survey.now) beginning.now) }
    {
        let mut needs = Vec::new(alloc);
        append_needs(survey.frames(), &mut needs)?;
        let class = survey.class();
        Ok(Deciding {
            joints: Vec::new(alloc),
            splice: Run::begin(class, &brought(class, needs.as_slice(), beginning)),
            needs,
            window: Window::new(alloc)?,
        })
    }

    /// Decides what becomes of the input with this number, given those before it.
    ///
    /// # Errors
    /// `Input` with `Read` or `Shrunk` if an input can't be read; `Memory`.
    fn add<D: Folder>(
        &mut self,
        folder: &mut D,
        inputs: &[JoinInput<'_>],
        number: u32,
        beginnings: &[Beginning],
    ) -> Result<(), EditFault>
        requires can { CanBeDecided (D.seen folder.old).files (map input_view inputs.now)
            beginnings.now }
        requires within { number < length inputs.now }
        requires before { IsDecidingTo (D.seen folder.old).files (map input_view inputs.now)
            beginnings.now number self.old }
        ensures decided { OnOk result
            (IsDecidingTo (D.seen folder.old).files (map input_view inputs.now)
            beginnings.now (number + 1) self.new) }
        ensures refused { IfErr result (IsInputReadFault (input_names (map input_view inputs.now))
            (D.seen folder.old)
            (D.seen folder.new)) }
        ensures numbers { IfErr result (HasJoinNumbers (length inputs.now)) }
        ensures reads { OnlyRead result (D.seen folder.old) (D.seen folder.new) }
    {
        let survey = &input_at(inputs, number as usize).survey;
        let from = self.needs.len();
        append_needs(survey.frames(), &mut self.needs)?;
        let beginning = &beginnings[number as usize];
        let input = brought(survey.class(), &self.needs[from..], beginning);
        let alike = alike(
            folder,
            inputs,
            &self.splice,
            number,
            &input,
            &mut self.window,
        )?;
        let joint = self.splice.join(number, &input, alike);
        join_needs(&joint, from, &mut self.needs);
        self.joints.push(joint)?;
        Ok(())
    }
}

/// The decision about all inputs: how many frames are left out at the front of the first, 0 or 1,
/// what becomes of each later one, and the needs of all frames of the splice, in the slots in which
/// they joined, including those left out at its front.
#[derive(Drop)]
pub(crate) struct Decided {
    pub front: u32,
    pub joints: Vec<Joint>,
    pub needs: Vec<Need>,
}

impl Decided {
    /// The needs of the frames that are written.
    pub fn splice(&self) -> &[Need]
        requires { self.now.front ≤ length self.now.needs.items }
        ensures { result.now ≡ splice_needs self.now }
    {
        &self.needs[self.front as usize..]
    }

    /// How many frames are left out at the front of the input with this number, counted from 0.
    fn left_out(&self, place: usize) -> u32
        requires { place ≤ length self.now.joints.items }
        ensures { drop place (left_out_of self.now)
            ≡ result ∷ drop (place + 1) (left_out_of self.now) }
    {
        if place == 0 {
            self.front
        } else {
            self.joints[place - 1].seam.left_out()
        }
    }

    /// Lets each input begin behind the frames that are left out at its front.
    pub fn leave_out(&self, inputs: &mut [JoinInput<'_>])
        requires { length inputs.old ≤ length self.now.joints.items + 1 }
        ensures { map input_view inputs.new
            ≡ from_places (map input_view inputs.old) (left_out_of self.now) }
    {
        let mut place = 0;
        for input in inputs.iter_mut() {
            input.from = self.left_out(place);
            place += 1;
        }
    }
}

/// How many frames are left out at the front of the whole splice, 0 or 1: the lead-in of the first
/// input, if it has one and the frames after it need one. `splice` has the needs of the splice's frames.
fn front_of(survey: &Survey, beginning: &Beginning, splice: &[Need]) -> u32
    requires begin { CanBeginSplice (survey_view survey.now) }
    requires same { AreNeedsOfClass (survey_view survey.now).class splice.now }
    requires fits { FitsBehind (window_of (survey_view survey.now).class.version)
        (window_of (survey_view survey.now).class.version) splice.now }
    requires first { take (length (survey_view survey.now).frames) splice.now
        ≡ input_needs (survey_view survey.now) }
    ensures front { (first : Brought) (frames : List SpliceFrame)
        → BringsNeeds (survey_view survey.now) beginning.now first → splice.now ≡ needs_of frames
        → result ≡ front_left_out_count (survey_view survey.now).class first frames }
    ensures most { result ≤ 1 }
    ensures behind { result < length (survey_view survey.now).frames }
{
    let count = survey.frames().len();
    let first = brought(survey.class(), &splice[..count], beginning);
    front_left_out(&first, splice)
}

/// Decides what becomes of all inputs, whose heads are set apart. The files stay.
///
/// # Errors
/// `Input` with the number of an input and `Read` or `Shrunk`, if frames to be compared could not
/// be read; `Memory`.
pub(crate) fn decide_all<D: Folder>(
    alloc: Global,
    folder: &mut D,
    inputs: &[JoinInput<'_>],
    beginnings: &[Beginning],
) -> Result<Decided, EditFault>
    requires can { CanBeDecided (D.seen folder.old).files (map input_view inputs.now)
        beginnings.now }
    ensures decided { IfOk result
        (IsSpliceDecided (D.seen folder.old).files (map input_view inputs.now) beginnings.now) }
    ensures refused { IfErr result (IsInputReadFault (input_names (map input_view inputs.now))
        (D.seen folder.old)
        (D.seen folder.new)) }
    ensures numbers { IfErr result (HasJoinNumbers (length inputs.now)) }
    ensures reads { OnlyRead result (D.seen folder.old) (D.seen folder.new) }
{
    let first = &input_at(inputs, 0).survey;
    let mut deciding = Deciding::begin(alloc, first, &beginnings[0])?;
    for number in 1..inputs.len() {
        deciding.add(folder, inputs, number as u32, beginnings)?;
    }
    let Deciding { joints, needs, .. } = deciding;
    let front = front_of(first, &beginnings[0], needs.as_slice());
    Ok(Decided {
        front,
        joints,
        needs,
    })
}
