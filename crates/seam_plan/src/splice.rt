//! The frames that are written so far, and what becomes of the next input.
ghost use Rattle.std.specs.Prelude.{◌≡◌, ◌<◌, ◌≤◌, ◌-◌, ◌++◌, List, [], ◌∷◌, length, drop, IfSome, option_map};
ghost use Rattle.frame_header.specs.Fields.{ClassFields};
ghost use Rattle.frame_header.specs.Tables.{window_of};
ghost use Rattle.exact_span.specs.PlayedPositions.{rest_of, longest_rest};
ghost use Rattle.slot_plan.specs.Parts.{AreNeedsOfClass};
ghost use Rattle.slot_plan.specs.FreeBytes.{FitsBehind, IsMostLeft};
ghost use Rattle.seam_plan.specs.Frames.{SpliceFrame, Brought, needs_of};
ghost use Rattle.seam_plan.specs.Seams.{joint_of, left_out_count, overlap_of, following_joint, joint_without_lead_in};
ghost use Rattle.seam_plan.specs.Decisions.{HoldsOfSplice, IsJoinableInput, IsBroughtInput, IsSplice, IsSpliceInWindow, IsJoint, AreJoint, AddedFramesFit, AddedInputFits, IsSlid, IsSoundSplice, CanFollow, JoinSplice, JoinsSplice, SpliceGoesOn, alike_overlap, last_places, last_seven, joined_needs, frame_places};

use crate::adding::left_in_slot;
use crate::input::{Input, needs_after};
use crate::lead_ins::{fit_alone, has_lead_in};
use crate::seam::Seam;
use arrayvec::ArrayVec;
use exact_span::{Overlap, shared};
use frame_header::{Class, Slot};
use slot_plan::{Need, joins, leaves};

/// A frame of an input: the number of the input and the number of the frame in it, counted from 0.
#[derive(Clone, Copy, Debug, Default, PartialEq, Eq)]
pub struct FramePlace {
    pub input: u32,
    pub frame: u32,
}

/// What becomes of an input after the first: how many frames are left out at its front, and the
/// slot in which the first of the other frames joins the splice, if there is one.
#[derive(Clone, Copy, Debug, PartialEq, Eq)]
pub struct Joint {
    pub seam: Seam,
    pub slot: Option<Slot>,
}

/// The frames that are written so far: how many bytes they leave after a whole window, which frames
/// are the last, and how many positions of the last input are after its last played one, if its
/// head has counts.
#[derive(Clone, Debug, Drop)]
pub struct Run {
    class: Class,
    left: u32,
    last: ArrayVec<FramePlace, 7>,
    rest: Option<u64>,
}

/// How many positions of the input are after its last played one, if its head has counts.
fn rest_of(class: Class, input: &Input<'_>) -> Option<u64>
    requires { IsJoinableInput class input.now }
    ensures most { IfSome result (λ rest. rest ≤ longest_rest) }
    ensures rest { result ≡ option_map (λ p. rest_of class (length input.now.needs.now) p)
        input.now.played }
{
    let played = input.played?;
    Some(played.rest(class, input.needs.len() as u32))
}

/// Adds a place to the last seven; if there are seven, the first of them is dropped.
fn slide(last: &mut ArrayVec<FramePlace, 7>, place: FramePlace)
    ensures { IsSlid last.old.items place last.new.items }
{
    if last.is_full() {
        last.remove(0);
    }
    last.push(place);
}

impl Run {
    /// The splice that begins with all frames of the first input. It takes no memory.
    pub fn begin(class: Class, input: &Input<'_>) -> Run
        requires { IsJoinableInput class input.now }
        ensures splice { (first : Brought) → IsBroughtInput input.now first
            → IsSplice class first.frames (frame_places 0 0 (length first.frames)) first result }
        ensures sound { IsSoundSplice result }
        ensures class { result.class ≡ class }
    {
        let window = class.window();
        let mut splice = Run {
            class,
            left: leaves(input.needs, window),
            last: ArrayVec::new(),
            rest: rest_of(class, input),
        };
        splice.note(0, 0, input.needs.len() as u32);
        splice
    }

    /// The frames that the next input shares with the one before it, if the heads of both have
    /// counts.
    pub fn overlap(&self, input: &Input<'_>) -> Option<Overlap>
        requires input { IsJoinableInput self.now.class input.now }
        requires sound { IsSoundSplice self.now }
        ensures overlap { HoldsOfSplice self.now input.now (λ class frames places before brought.
            result ≡ overlap_of class before brought) }
        ensures can { IfSome result (CanFollow input.now) }
    {
        let rest = self.rest?;
        let played = input.played?;
        shared(self.class, rest, played.start, input.needs.len() as u32)
    }

    /// The places of the last `count` frames of the splice, at most 7. `None` exactly if the splice has
    /// fewer.
    pub fn last(&self, count: usize) -> Option<&[FramePlace]>
        ensures { (class : ClassFields) (frames : List SpliceFrame) (places : List FramePlace)
            (before : Brought) → IsSplice class frames places before self.now → count ≤ 7
            → option_map (λ s. s.now) result ≡ last_places places count }
    {
        let last = self.last.as_slice();
        if count > last.len() {
            return None;
        }
        Some(&last[last.len() - count..])
    }

    /// Adds these frames of an input after the splice's own, the first of them in this slot, if there
    /// is one.
    fn add(&mut self, needs: &[Need], slot: Option<Slot>)
        requires within { IsSpliceInWindow self.old }
        requires same { AreNeedsOfClass self.old.class needs.now }
        requires fit { AddedFramesFit self.old.class self.old.left needs.now slot }
        ensures class { self.new.class ≡ self.old.class }
        ensures last { self.new.last ≡ self.old.last }
        ensures rest { self.new.rest ≡ self.old.rest }
        ensures within { IsSpliceInWindow self.new }
        ensures left { (frames : List Need) → IsMostLeft (window_of self.old.class.version)
            (window_of self.old.class.version) frames self.old.left
            → IsMostLeft (window_of self.old.class.version) (window_of self.old.class.version)
            (frames ++ joined_needs slot needs.now) self.new.left }
    {
        let Some(slot) = slot else {
            return;
        };
        self.left = left_in_slot(self.class, self.left, needs, slot);
    }

    /// Adds the places of an input's frames from `from` to before `to` after the splice's own.
    fn note(&mut self, input: u32, from: u32, to: u32)
        requires { from ≤ to }
        ensures class { self.new.class ≡ self.old.class }
        ensures left { self.new.left ≡ self.old.left }
        ensures rest { self.new.rest ≡ self.old.rest }
        ensures last { (places : List FramePlace) → self.old.last.items ≡ last_seven places
            → self.new.last.items ≡ last_seven (places ++ frame_places input from (to - from)) }
    {
        let first = from.max(to.saturating_sub(7));
        for frame in first..to {
            slide(&mut self.last, FramePlace { input, frame });
        }
    }

    /// How the frames of an input that are left with this seam join the splice: in which slot the
    /// first joins, if there is one. `None` if they can't.
    fn joining(&self, seam: Seam, needs: &[Need]) -> Option<Joint>
        requires within { IsSpliceInWindow self.now }
        requires same { AreNeedsOfClass self.now.class needs.now }
        requires fits { FitsBehind (window_of self.now.class.version)
            (window_of self.now.class.version) needs.now }
        ensures joining { JoinSplice seam needs.now self.now result }
        ensures fit { IfSome result
            (λ j. AddedFramesFit self.now.class self.now.left needs.now j.slot) }
        ensures seam { IfSome result (λ j. j.seam ≡ seam) }
    {
        if needs.is_empty() {
            return Some(Joint { seam, slot: None });
        }
        let Some(slot) = joins(self.left, needs) else {
            return None;
        };
        Some(Joint {
            seam,
            slot: Some(slot),
        })
    }

    /// The joint with which the next input follows the one before it, if the frames that must be
    /// alike are and the frames after the shared ones can join the splice.
    fn following(&self, input: &Input<'_>, alike: Option<Overlap>) -> Option<Joint>
        requires input { IsJoinableInput self.now.class input.now }
        requires within { IsSpliceInWindow self.now }
        requires alike { IfSome alike (λ o. o.frames ≤ length input.now.needs.now) }
        ensures joint { HoldsOfSplice self.now input.now (λ class frames places before brought.
            alike ≡ alike_overlap class frames before brought
            → AreJoint (following_joint class frames before brought) result) }
        ensures fits { IfSome result (AddedInputFits self.now.class self.now.left input.now) }
    {
        let Some(overlap) = alike else {
            return None;
        };
        let needs = needs_after(input.needs, overlap.frames as usize);
        self.joining(Seam::Follows(overlap.frames), needs)
    }

    /// The joint of the next input without its lead-in, if it has one that the frames after it want
    /// and these can join the splice.
    fn without_lead_in(&self, input: &Input<'_>) -> Option<Joint>
        requires input { IsJoinableInput self.now.class input.now }
        requires within { IsSpliceInWindow self.now }
        ensures joint { HoldsOfSplice self.now input.now (λ class frames places before brought.
            AreJoint (joint_without_lead_in class frames brought) result) }
        ensures fits { IfSome result (AddedInputFits self.now.class self.now.left input.now) }
    {
        let others = needs_after(input.needs, 1);
        if !has_lead_in(input) {
            return None;
        }
        if fit_alone(others) {
            return None;
        }
        self.joining(Seam::LeadIn, others)
    }

    /// What becomes of the next input.
    fn decide(&self, input: &Input<'_>, alike: Option<Overlap>) -> Joint
        requires input { IsJoinableInput self.now.class input.now }
        requires within { IsSpliceInWindow self.now }
        requires alike { IfSome alike (λ o. o.frames ≤ length input.now.needs.now) }
        ensures joint { HoldsOfSplice self.now input.now (λ class frames places before brought.
            alike ≡ alike_overlap class frames before brought
            → IsJoint (joint_of class frames before brought) result) }
        ensures fits { AddedInputFits self.now.class self.now.left input.now result }
    {
        if let Some(joint) = self.following(input, alike) {
            return joint;
        }
        if let Some(joint) = self.without_lead_in(input) {
            return joint;
        }
        let first = &input.needs[0].header;
        Joint {
            seam: Seam::Whole,
            slot: Some(first.slot),
        }
    }

    /// What becomes of the next input, which has the number `number`; the splice then has its frames
    /// too, except those that are left out. `alike` is what `overlap` returns, if the frames that
    /// must be alike are, one by one, the last frames of the splice. The first of these cases that is
    /// possible is taken:
    ///
    /// - the input follows the one before it: these frames are alike, and the frames after the
    ///   shared ones can join the splice;
    /// - its lead-in is left out: it begins with one, which the frames after it want, and these can
    ///   join the splice;
    /// - it is whole.
    ///
    /// Frames can join if all fit after a whole window with the first of them in its own slot or in
    /// a larger one; they join in the least such slot. It takes no memory.
    pub fn join(&mut self, number: u32, input: &Input<'_>, alike: Option<Overlap>) -> Joint
        requires input { IsJoinableInput self.old.class input.now }
        requires sound { IsSoundSplice self.old }
        requires alike { IfSome alike (λ o. o.frames ≤ length input.now.needs.now) }
        ensures joint { HoldsOfSplice self.old input.now (λ class frames places before brought.
            alike ≡ alike_overlap class frames before brought
            → JoinsSplice class number frames places before brought result self.new) }
        // Whether or not frames are alike.
        ensures fits { AddedInputFits self.old.class self.old.left input.now result }
        ensures goes_on { SpliceGoesOn number input.now result self.old self.new }
        ensures sound { IsSoundSplice self.new }
        ensures class { self.new.class ≡ self.old.class }
    {
        let joint = self.decide(input, alike);
        let left_out = joint.seam.left_out();
        self.add(needs_after(input.needs, left_out as usize), joint.slot);
        self.note(number, left_out, input.needs.len() as u32);
        self.rest = rest_of(self.class, input);
        joint
    }
}
