//! The frames of a stream with their side information, and the faults of their main data.
ghost use Rattle.std.specs.Prelude.{◌≡◌, ◌+◌, ◌^◌, ◌≤◌, Some, None, Ok, IfOk, IfErr, OnOk};
ghost use Rattle.frame_header.specs.Tables.{class_of};
ghost use Rattle.side_info.specs.Side.{payload_bits, payload_bytes, SideFits};
ghost use Rattle.side_info.specs.Frame.{stored_crc};
ghost use Rattle.sync_survey.specs.MainData.{row_in, own_area, lacks_data};
ghost use Rattle.sync_survey.specs.Faults.{crc_faults, count_faults, first_of};
ghost use Rattle.sync_survey.specs.Items.{header_front};
ghost use Rattle.sync_survey.specs.Looks.{ReachArea, data_fault, frame_fault, IsJudgedFrame};
ghost use Rattle.frame_header.specs.Limits.{most_frame_length};

use crate::HasOffset;
use crate::survey_fault::SurveyFault;
use frame_header::{Class, Header};
use side_info::{Extent, FrameFront, Side, stored_crc};
use std::marker::Model;

/// A frame of the stream: the offset of its header in bytes, its header and side information as the
/// bytes in the file, and whether it is lost. It takes 44 bytes.
#[derive(Clone, Copy, Debug, PartialEq, Eq)]
pub struct Row {
    offset: u32,
    lost: bool,
    front: FrameFront,
}

impl Model for Row {
    ghost use Rattle.sync_survey.specs.Row.{Row};

    ghost Value = { Row };

    ghost view = { λ r.
        record { offset = r.offset; header = r.front.header; lost = r.lost; side = r.front.side } };

    ghost inverse = { λ r. record {
      offset = r.offset;
      lost = r.lost;
      front = record { header = r.header; side = r.side };
    } };
}

impl HasOffset for Row {
    ghost offset_of = { λ r. r.offset };

    fn offset_in_file(&self) -> u64 {
        u64::from(self.offset)
    }
}

impl Row {
    /// The frame with this front at this offset, and whether it is lost.
    #[inline(always)]
    pub fn new(offset: u32, lost: bool, front: FrameFront) -> Row
        ensures { result ≡ record {
          offset = offset;
          header = front.header;
          lost = lost;
          side =
              front.side;
        } }
    {
        Row {
            offset,
            lost,
            front,
        }
    }

    /// The frame with this header at this offset, as if it weren't lost. `bytes` begin with the
    /// frame's own.
    #[inline(always)]
    pub fn read(offset: u32, header: &Header, bytes: &[u8]) -> Row
        requires heads { header_front bytes.now ≡ Ok header.now }
        requires room { ReachArea header.now bytes.now }
        ensures row { result ≡ row_in offset header.now bytes.now }
        ensures fits { SideFits (class_of header.now) result.side }
    {
        Row::read_in(header.class(), offset, header, bytes)
    }

    /// As `read`, where the class of the header is known.
    #[inline(always)]
    pub fn read_in(class: Class, offset: u32, header: &Header, bytes: &[u8]) -> Row
        requires class { class ≡ class_of header.now }
        requires heads { header_front bytes.now ≡ Ok header.now }
        requires room { ReachArea header.now bytes.now }
        ensures row { result ≡ row_in offset header.now bytes.now }
        ensures fits { SideFits (class_of header.now) result.side }
    {
        Row::new(offset, false, FrameFront::read_in(class, header, bytes))
    }

    /// The offset of its header in bytes, less than 2^30, since a longer file is refused.
    #[inline(always)]
    pub fn offset(&self) -> u32
        ensures { result ≡ self.now.offset }
    {
        self.offset
    }

    /// The header.
    #[inline(always)]
    pub fn header(&self) -> Header
        ensures { result ≡ self.now.header }
    {
        self.front.header()
    }

    /// Whether the frame is lost: its main data begin before the stream, and every frame before it
    /// is silent or lost. They were cut off with earlier frames, so the frame counts as having
    /// none.
    #[inline(always)]
    pub fn lost(&self) -> bool
        ensures { result ≡ self.now.lost }
    {
        self.lost
    }

    /// The side information as it is in the file, even if the frame is lost.
    #[inline(always)]
    pub fn side(&self) -> Side
        ensures side { result ≡ self.now.side }
        ensures fits { SideFits (class_of self.now.header) self.now.side }
    {
        self.front.side()
    }

    /// The header and the side information as they are in the file.
    #[inline(always)]
    pub fn front(&self) -> &FrameFront
        ensures { result.now ≡ record { header = self.now.header; side = self.now.side } }
    {
        &self.front
    }

    /// Where its main data begin, and how long they are, as its side information says.
    #[inline(always)]
    pub fn extent(&self) -> Extent
        ensures begin { result.begin ≡ self.now.side.main_data_begin }
        ensures bits { result.bits ≡ payload_bits self.now.side }
    {
        self.front.extent()
    }

    /// Marks the frame as lost or not.
    #[inline(always)]
    pub fn mark(&mut self, lost: bool)
        ensures { self.new ≡ record self.old { lost = lost } }
    {
        self.lost = lost;
    }
}

/// The areas before a frame, including the head's, and the main data in them.
#[derive(Clone, Copy)]
pub struct ReservoirState {
    /// How many bytes they have: the place among all areas at which the frame's own begins.
    pub place: u64,
    /// The place among all areas at which the main data of the last frame that is neither silent
    /// nor lost end; 0 if there is none.
    pub ended: u64,
}

/// What is known after a frame without fault: whether it is lost, and the areas before the next frame.
#[derive(Clone, Copy)]
pub struct JudgedFrame {
    pub lost: bool,
    pub before: ReservoirState,
}

/// The fault of a protected frame's check word, if it is wrong.
fn crc_fault(header: &Header, row: &Row, bytes: &[u8]) -> Option<SurveyFault>
    requires same { header.now ≡ row.now.header }
    requires room { ReachArea row.now.header bytes.now }
    ensures { result ≡ first_of (crc_faults (stored_crc bytes.now) row.now) }
{
    if !header.protected {
        return None;
    }
    let said = stored_crc(bytes);
    let right = row.front.right_crc();
    if said == right {
        return None;
    }
    Some(SurveyFault::CheckWord(u64::from(row.offset), said, right))
}

/// The fault of a frame that has `count` frames before it, if that is as many as are allowed.
fn count_fault(row: &Row, count: u64, allowed: u64) -> Option<SurveyFault>
    ensures { result ≡ first_of (count_faults count allowed row.now) }
{
    if count == allowed {
        Some(SurveyFault::TooManyFrames(u64::from(row.offset)))
    } else {
        None
    }
}

/// How many frames are before one, and how many are allowed.
#[derive(Clone, Copy)]
pub(crate) struct Limit {
    pub(crate) count: u64,
    pub(crate) allowed: u64,
}

impl ReservoirState {
    /// Whether the frame is lost: its main data begin before the stream, and every frame before it is
    /// silent or lost.
    fn is_lost(&self, row: &Row, begin: u16) -> bool
        requires { begin ≡ row.now.side.main_data_begin }
        ensures { result ≡ lacks_data self.now.place self.now.ended row.now }
    {
        // The row is here for the contract; the code needs only its main_data_begin, which the
        // caller has read.
        let _ = row;
        self.ended == 0 && self.place < u64::from(begin)
    }

    /// What is known after the frame with this header.
    ///
    /// # Errors
    /// The first fault of its main data: `BackPointer`, `Overlap` or `Overrun`. A lost frame has none.
    #[inline(always)]
    pub fn judge_frame(&self, header: &Header, row: &Row) -> Result<JudgedFrame, SurveyFault>
        requires same { header.now ≡ row.now.header }
        requires bound { self.now.place ≤ 2 ^ 62 }
        ensures fault { IfErr result (λ f. data_fault self.now row.now ≡ Some f) }
        ensures sound { OnOk result (data_fault self.now row.now ≡ None) }
        ensures behind { IfOk result (IsJudgedFrame self.now.place self.now.ended row.now) }
    {
        self.judge_frame_in(header.class(), header, row)
    }

    /// As `judge_frame`, where the class of the header is known.
    ///
    /// # Errors
    /// As `judge_frame`.
    #[inline(always)]
    #[tactic(auto, unfolding(side_info::specs::Side::payload_bytes))]
    pub fn judge_frame_in(
        &self,
        class: Class,
        header: &Header,
        row: &Row,
    ) -> Result<JudgedFrame, SurveyFault>
        requires class { class ≡ class_of header.now }
        requires same { header.now ≡ row.now.header }
        requires bound { self.now.place ≤ 2 ^ 62 }
        ensures fault { IfErr result (λ f. data_fault self.now row.now ≡ Some f) }
        ensures sound { OnOk result (data_fault self.now row.now ≡ None) }
        ensures behind { IfOk result (IsJudgedFrame self.now.place self.now.ended row.now) }
    {
        let extent = row.front.extent_in(class);
        let area = class.area_of(header.slot, header.protected);
        self.judge_extent(row, area, &extent, extent.bytes())
    }

    /// As `judge_frame`, given the length in bytes of the frame's own area, the extent of its main
    /// data, and their length in bytes.
    #[inline(always)]
    fn judge_extent(
        &self,
        row: &Row,
        area: u32,
        extent: &Extent,
        bytes: u32,
    ) -> Result<JudgedFrame, SurveyFault>
        requires bound { self.now.place ≤ 2 ^ 62 }
        requires area { area ≡ own_area row.now.header }
        requires few { area ≤ most_frame_length }
        requires begin { extent.now.begin ≡ row.now.side.main_data_begin }
        requires bits { extent.now.bits ≡ payload_bits row.now.side }
        requires bytes { bytes ≡ payload_bytes row.now.side }
        ensures fault { IfErr result (λ f. data_fault self.now row.now ≡ Some f) }
        ensures sound { OnOk result (data_fault self.now row.now ≡ None) }
        ensures behind { IfOk result (IsJudgedFrame self.now.place self.now.ended row.now) }
    {
        let place = self.place + u64::from(area);
        let Extent { begin, bits } = *extent;
        if self.is_lost(row, begin) {
            let ended = self.ended;
            return Ok(JudgedFrame {
                lost: true,
                before: ReservoirState { place, ended },
            });
        }
        let offset = u64::from(row.offset);
        if self.place < u64::from(begin) {
            return Err(SurveyFault::BackPointer(offset, u32::from(begin), self.place));
        }
        let start = self.place - u64::from(begin);
        if start < self.ended {
            return Err(SurveyFault::Overlap(offset));
        }
        let end = start + u64::from(bytes);
        if place < end {
            let room = 8 * (u32::from(begin) + area);
            return Err(SurveyFault::Overrun(offset, bits, room));
        }
        let ended = if bits == 0 { self.ended } else { end };
        Ok(JudgedFrame {
            lost: false,
            before: ReservoirState { place, ended },
        })
    }

    /// What is known after a frame with this header, which is of this class, with `limit.count`
    /// frames before it. `bytes` begin with the frame's own.
    ///
    /// # Errors
    /// The first fault of the frame.
    #[inline(always)]
    pub(crate) fn step(
        &self,
        class: Class,
        header: &Header,
        row: &Row,
        bytes: &[u8],
        limit: &Limit,
    ) -> Result<JudgedFrame, SurveyFault>
        requires class { class ≡ class_of header.now }
        requires same { header.now ≡ row.now.header }
        requires room { ReachArea row.now.header bytes.now }
        requires bound { self.now.place ≤ 2 ^ 62 }
        ensures fault { IfErr result (λ f. frame_fault bytes.now limit.now.allowed self.now
            limit.now.count row.now ≡ Some f) }
        ensures sound { OnOk result (frame_fault bytes.now limit.now.allowed self.now
            limit.now.count row.now ≡ None) }
        ensures behind { IfOk result (IsJudgedFrame self.now.place self.now.ended row.now) }
    {
        if let Some(fault) = crc_fault(header, row, bytes) {
            return Err(fault);
        }
        let behind = self.judge_frame_in(class, header, row)?;
        match count_fault(row, limit.count, limit.allowed) {
            Some(fault) => Err(fault),
            None => Ok(behind),
        }
    }
}
