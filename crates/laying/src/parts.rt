//! The parts of a plan, concatenated.
ghost use Rattle.std.specs.Prelude.{◌≡◌, ◌↔◌, ◌+◌, ◌<◌, ◌≤◌, List, [], ◌∷◌, ◌++◌, length, map, vec_len, vec_capacity, IsTrue, IfOk, OnOk, OnErr};
ghost use Rattle.frame_header.specs.Tables.{class_of};
ghost use Rattle.side_info.specs.FrameFields.{header_like};
ghost use Rattle.sync_survey.specs.Row.{Row};
ghost use Rattle.laying.specs.Needs.{PlanInput, need_of, plan_input, IsUsualFrame};
ghost use Rattle.laying.specs.NeedsAnswers.{IsItemPushed, PushPartAnswer};

use frame_header::Class;
use side_info::FrameFront;
use slot_plan::Need;
use std::alloc::{AllocError, Global};
use std::marker::Model;
use std::mem;
use sync_survey::Row;

/// Frames to be placed, and where each part of them begins: the input of `plan`.
#[derive(Drop)]
pub struct Parts {
    needs: Vec<Need>,
    places: Vec<u32>,
}

impl Model for Parts {
    ghost use Rattle.laying.specs.Needs.{PlanInput};

    ghost Value = { PlanInput };

    ghost view = { λ p. record { needs = p.needs.items; places = p.places.items } };
}

/// What a frame needs: a lost frame has no main data.
fn need_of(row: &Row) -> Need
    ensures { result ≡ need_of row.now }
{
    let bytes = if row.lost() {
        0
    } else {
        row.front().payload_bytes()
    };
    Need {
        header: row.header(),
        bytes,
    }
}

/// Adds a need of `bytes` bytes for a frame whose header is that of `like` except for slot and mode
/// extension.
// Copies the whole need and then writes over it, which takes fewer steps than setting its fields
// one by one.
#[inline(always)]
fn push_like(like: &Need, front: &FrameFront, bytes: u32, needs: &mut Vec<Need>)
    requires { vec_len needs.old < vec_capacity needs.old }
    ensures { IsItemPushed needs.old needs.new (record
        { header = header_like like.now.header front.now.header; bytes = bytes }) }
{
    let place = needs.len();
    needs.push_reserved(*like);
    let slot = front.slot();
    // Named for the proof alone: its bit rate index is in range.
    let _ = &slot.rate_index;
    let mode_extension = front.mode_extension();
    let need = &mut needs[place];
    need.header.slot = slot;
    need.header.mode_extension = mode_extension;
    need.bytes = bytes;
}

/// Whether a frame isn't lost and has the header of `first` except for slot and mode extension.
#[inline(always)]
fn is_usual(first: &FrameFront, row: &Row) -> bool
    ensures { IsTrue result ↔ IsUsualFrame first.now.header row.now }
{
    row.front().is_like(first) && !row.lost()
}

/// Adds what such a frame needs. `like` is the need of the frame that it is compared with, and
/// `class` the class of that frame.
#[inline(always)]
#[tactic(auto, unfolding(side_info::specs::Side::payload_bytes))]
fn push_usual(class: Class, like: &Need, row: &Row, needs: &mut Vec<Need>)
    requires class { class ≡ class_of like.now.header }
    requires usual { IsUsualFrame like.now.header row.now }
    requires room { vec_len needs.old < vec_capacity needs.old }
    ensures { IsItemPushed needs.old needs.new (need_of row.now) }
{
    let front = row.front();
    push_like(like, front, front.extent_in(class).bytes(), needs);
}

/// The needs with what these frames need after them. `like` is the need of a frame with the front
/// `first`: most frames of a stream have its header except for slot and mode extension, and only
/// the headers of the others are decoded and checked again.
// Passed by value, the vector keeps its place and length in registers; `like` is passed by
// reference, so that it is copied at once.
#[inline(never)]
fn append_like(first: &FrameFront, like: &Need, rows: &[Row], needs: Vec<Need>) -> Vec<Need>
    requires like { like.now.header ≡ first.now.header }
    requires room { vec_len needs + length rows.now ≤ vec_capacity needs }
    ensures { result.items ≡ needs.items ++ map need_of rows.now }
{
    let mut needs = needs;
    let first = *first;
    let class = first.class();
    for row in rows {
        if is_usual(&first, row) {
            push_usual(class, like, row, &mut needs);
        } else {
            needs.push_reserved(need_of(row));
        }
    }
    needs
}

/// Adds what these frames of a survey need after what is there.
///
/// # Errors
/// If memory runs out. Then nothing is added.
pub fn append_needs(rows: &[Row], needs: &mut Vec<Need>) -> Result<(), AllocError>
    ensures added { OnOk result (needs.new.items ≡ needs.old.items ++ map need_of rows.now) }
    ensures stays { OnErr result (needs.new.items ≡ needs.old.items) }
{
    needs.reserve(rows.len())?;
    if let Some(first) = rows.first() {
        let empty = Vec::new(*needs.allocator());
        let held = mem::replace(needs, empty);
        *needs = append_like(first.front(), &need_of(first), rows, held);
    }
    Ok(())
}

impl Parts {
    /// No parts. It takes no memory.
    #[tactic(auto, unfolding(crate::specs::Needs::needs_of_parts, crate::specs::Needs::part_places))]
    pub fn new(alloc: Global) -> Parts
        ensures parts { result ≡ plan_input [] }
        ensures no_needs { length result.needs ≡ 0 }
        ensures no_places { length result.places ≡ 0 }
    {
        Parts {
            needs: Vec::new(alloc),
            places: Vec::new(alloc),
        }
    }

    /// What the frames of all parts need, in order.
    pub fn needs(&self) -> &[Need]
        ensures { result.now ≡ self.now.needs }
    {
        &self.needs
    }

    /// The place of each part's first frame among the needs, counted from 0.
    pub fn places(&self) -> &[u32]
        ensures { result.now ≡ self.now.places }
    {
        &self.places
    }

    /// Adds a part, these frames of a survey, after those that are there.
    ///
    /// # Errors
    /// If memory runs out. Then nothing is added.
    pub fn push(&mut self, rows: &[Row]) -> Result<(), AllocError>
        requires few { length self.old.needs ≤ 4294967295 }
        ensures { PushPartAnswer rows.now self.old self.new result }
    {
        let place = self.needs.len() as u32;
        self.places.reserve(1)?;
        append_needs(rows, &mut self.needs)?;
        self.places.push_reserved(place);
        Ok(())
    }
}
