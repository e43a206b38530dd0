//! Frames as they are written.
ghost use Rattle.std.specs.Prelude.{◌≡◌, ◌≤◌, ◌++◌, length, OnOk, OnErr};
ghost use Rattle.frame_header.specs.Fields.{IsHeader};
ghost use Rattle.frame_header.specs.Tables.{class_of};
ghost use Rattle.side_info.specs.Side.{SideFits};
ghost use Rattle.side_info.specs.Frame.{frame_front_bytes};
ghost use Rattle.outside.specs.Files.{IsFileThere};
ghost use Rattle.outside.specs.BufferOutput.{AppendsWaiting, AppendedPrefix};
ghost use Rattle.outside.specs.Counts.{OnlyWrites};
ghost use Rattle.frame_writer.specs.Frames.{frame_area, first_bytes};
ghost use Rattle.frame_writer.specs.Laid.{laid_count};
ghost use Rattle.frame_writer.specs.Writing.{WriteFailed};
ghost use Rattle.outside.specs.Answers.{PassAnswer};
ghost use Rattle.frame_header.specs.Limits.{most_frame_length};

use crate::areas::Areas;
use frame_header::Class;
use outside::{Failed, Folder, InPlace, WriteBuffer};
use reservoir::Payload;
use side_info::FrameFront;
use std::marker::Model;

/// Header and side information of a frame, and how many bytes its area has, so that this isn't
/// computed again while it waits. Contracts see the fields of header and side information.
#[derive(Clone, Copy)]
pub(crate) struct SizedFront {
    front: FrameFront,
    area: u16,
}

impl Model for SizedFront {
    ghost use Rattle.std.specs.Prelude.{◌≡◌};
    ghost use Rattle.frame_header.specs.Fields.{IsHeader};
    ghost use Rattle.side_info.specs.FrameFields.{FrameFields};
    ghost use Rattle.frame_writer.specs.Frames.{frame_area};

    ghost Value = { FrameFields };

    ghost view = { λ s. s.front };

    ghost invariant = { λ s. IsHeader s.front.header × (s.area ≡ frame_area s.front) };

    ghost inverse = { λ f. record { front = f; area = frame_area f } };
}

impl SizedFront {
    /// The front of a frame whose area has `area` bytes.
    #[inline(always)]
    fn new(front: &FrameFront, area: u32) -> SizedFront
        requires { area ≡ frame_area front.now }
        ensures { result ≡ front.now }
    {
        // The class gives the proof that the header is one of the standard's, so the area fits in
        // 16 bits.
        let _ = front.class();
        SizedFront {
            front: *front,
            area: area as u16,
        }
    }

    /// How many bytes the area has, from 1 to 1,441.
    #[inline(always)]
    pub fn area(&self) -> u32
        ensures area { result ≡ frame_area self.now }
        ensures some { 1 ≤ result }
        ensures most { result ≤ most_frame_length }
        ensures header { IsHeader self.now.header }
    {
        u32::from(self.area)
    }

    /// main_data_begin, if the class of the header is known.
    #[inline(always)]
    pub fn begin_in(&self, class: Class) -> u16
        requires { class ≡ class_of self.now.header }
        ensures begin { result ≡ self.now.side.main_data_begin }
        ensures fits { SideFits (class_of self.now.header) self.now.side }
    {
        self.front.begin_in(class)
    }

    /// The front, if the class of the header is known.
    #[inline(always)]
    pub fn of_class(&self, class: Class) -> FrontOfClass<'_>
        requires { class ≡ class_of self.now.header }
        ensures { result ≡ self.now }
    {
        FrontOfClass { front: self, class }
    }
}

/// The front of a frame whose class is known, to be written.
#[derive(Drop)]
pub(crate) struct FrontOfClass<'f> {
    front: &'f SizedFront,
    class: Class,
}

impl<'f> Model for FrontOfClass<'f> {
    ghost use Rattle.std.specs.Prelude.{◌≡◌};
    ghost use Rattle.frame_header.specs.Tables.{class_of};
    ghost use Rattle.side_info.specs.FrameFields.{FrameFields};

    ghost Value = { FrameFields };

    ghost view = { λ f. f.front.now };

    ghost invariant = { λ f. f.class ≡ class_of f.front.now.header };
}

impl<'f> InPlace for FrontOfClass<'f> {
    ghost bytes_of = { λ f. frame_front_bytes f.header f.side };

    #[inline(always)]
    fn put_in(&self, room: &mut [u8]) -> usize {
        let front = self.front;
        front.front.put_in(self.class, room)
    }
}

/// A frame to write: header and side information, how many bytes its area has, and its main data.
#[derive(Drop)]
pub struct Frame<'f, 'a> {
    front: &'f FrameFront,
    area: u32,
    pub(crate) payload: Payload<'a>,
}

impl<'f, 'a> Model for Frame<'f, 'a> {
    ghost use Rattle.std.specs.Prelude.{◌≡◌};
    ghost use Rattle.frame_writer.specs.Frames.{Frame, frame_area};

    ghost Value = { Frame };

    ghost view = { λ f. record { kept = f.front.now; payload = f.payload } };

    ghost invariant = { λ f. f.area ≡ frame_area f.front.now };
}

impl<'f, 'a> Frame<'f, 'a> {
    /// A frame with this header and side information, and these main data.
    #[inline(always)]
    pub fn new(front: &'f FrameFront, payload: Payload<'a>) -> Frame<'f, 'a>
        ensures { result ≡ record { kept = front.now; payload = payload.entry } }
    {
        Frame::with_area(front, front.header().area(), payload)
    }

    /// A frame with this header and side information, and these main data, if it is known how many
    /// bytes its area has.
    #[inline(always)]
    pub fn with_area(front: &'f FrameFront, area: u32, payload: Payload<'a>) -> Frame<'f, 'a>
        requires { area ≡ frame_area front.now }
        ensures { result ≡ record { kept = front.now; payload = payload.entry } }
    {
        Frame {
            front,
            area,
            payload,
        }
    }

    /// The front of the frame: what is before its area.
    #[inline(always)]
    pub(crate) fn front(&self) -> SizedFront
        ensures { result ≡ self.now.kept }
    {
        SizedFront::new(self.front, self.area)
    }
}

/// Adds the bytes of a frame, whose area is the first of those that wait, to what waits for the
/// file. `stored` bytes of the area are in the queue, as `Areas::stored` says.
///
/// # Errors
/// If a write failed. Then a prefix of both was appended.
#[inline(always)]
pub(crate) fn add_frame<D: Folder>(
    first: &FrontOfClass<'_>,
    areas: &Areas,
    stored: usize,
    folder: &mut D,
    name: &str,
    unsent: &mut WriteBuffer,
) -> Result<(), Failed>
    requires there { IsFileThere (D.seen folder.old).files name.now }
    requires within { frame_area first.now ≤ length areas.now.bytes }
    requires stored { stored ≡ laid_count (frame_area first.now) areas.now }
    ensures { PassAnswer name.now unsent.old (first_bytes first.now areas.now.bytes) unsent.new
        (D.seen folder.old) (D.seen folder.new) result }
{
    unsent.push_made(folder, name, first)?;
    areas.add_first(first.front.area() as usize, stored, folder, name, unsent)
}
