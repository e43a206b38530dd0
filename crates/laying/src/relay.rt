//! The frames of a surveyed input, read once from beginning to end and passed to the writer of an
//! output.
ghost use Rattle.std.specs.Prelude.{◌≡◌, if◌then◌else◌, ◌+◌, ◌-◌, ◌^◌, ◌<◌, ◌≤◌, ◌++◌, min, List, ℕ, [], length, take, IfOk, OnOk};
ghost use Rattle.frame_header.specs.Tables.{class_of, area_of, length_of, overhead_of};
ghost use Rattle.outside.specs.Files.{IsFileThere};
ghost use Rattle.outside.specs.Pass.{route_of};
ghost use Rattle.side_info.specs.Side.{front_width};
ghost use Rattle.frame_writer.specs.Frames.{held_bytes, bytes_of_frames, reach_of, IsNextSettled};
ghost use Rattle.frame_writer.specs.Writing.{writing_of, IsNewQueue};
ghost use Rattle.sync_survey.specs.Faults.{survey_view};
ghost use Rattle.sync_survey.specs.MainData.{own_area, place, main_bytes, row_side};
ghost use Rattle.reservoir.specs.Window.{window_size};
ghost use Rattle.laying.specs.Needs.{need_of};
ghost use Rattle.laying.specs.Relaid.{payload_of, lead_in_before};
ghost use Rattle.laying.specs.Fits.{placed_bytes, placed_area};
ghost use Rattle.laying.specs.Calls.{IsRelayOpen, IsRelayAtFrame, IsNextFrame, HoldsUpTo, CanGiveFrame, RelayReadAnswer, GivesArea, CanCutData, TakesFrame, RelayFramesAnswer, ForwardAnswer, AddMadeAnswer};
ghost use Rattle.laying.specs.Passing.{IsRelayReady, AreGivenBytes, KeepsReach, IsWindowOverFrames, HoldsLastAreas, relay_frame, relay_planned_frame, planned_frames, own_reach, placed_reach, reach_behind_all, FitsRelayReach};
ghost use Rattle.laying.specs.Laid.{selected_frames, IsWritableSelection};
ghost use Rattle.laying.specs.Places.{places_for, own_places};
ghost use Rattle.frame_header.specs.Limits.{most_back, most_frame_length};
ghost use Rattle.outside.specs.Feed.{most_given};
ghost use Rattle.frame_writer.specs.Laid.{most_waiting};

use crate::areas::{AreaSource, read_before};
use crate::buffers::RelayBuffers;
use crate::selected::Selected;
use frame_header::{Class, Header};
use frame_writer::{Frame, FrameQueue};
use outside::{Feed, Folder, Pass, PassFault, WriteBuffer};
use reservoir::{Payload, Window};
use side_info::{Extent, FrameFront, Side};
use slot_plan::Placed;
use sync_survey::{Row, Survey};

/// A surveyed input, and the output that its frames are written to.
#[derive(Clone, Copy)]
pub struct Relay<'a> {
    pub pass: Pass<'a>,
    pub survey: &'a Survey,
}

/// How far the frames of an input were read: the number of the next frame, and the offset and
/// length in bytes of the area before it if that area isn't in the window yet; the length is 0 if
/// it is. The feed reads that area again together with the next one, so that its bytes are copied
/// into the window only if later main data reach them.
#[derive(Clone, Copy)]
struct Reading {
    next: usize,
    at: u64,
    count: usize,
}

/// What the survey says about the next frame: the class, which all frames share, and its row.
#[derive(Clone, Copy)]
struct NextFrame<'r> {
    class: Class,
    row: &'r Row,
}

/// Where a feed holds the bytes for a frame: `before` bytes of the area before it, and from byte
/// `skip` on its own area, which is at offset `at` in the input.
#[derive(Clone, Copy)]
struct AreaSpan {
    before: usize,
    skip: usize,
    at: u64,
}

/// The bytes that hold the main data of a frame: its own area, the area before it if that isn't in
/// the window, and the window before these.
#[derive(Clone, Copy)]
struct HeldAreas<'w> {
    window: &'w Window,
    before: &'w [u8],
    own: &'w [u8],
}

/// Where the area of a frame is in the input: its offset, and its length in bytes.
#[derive(Clone, Copy)]
struct AreaExtent {
    at: u64,
    size: usize,
}

/// Where the area of a frame of this class is.
#[inline(always)]
fn area_extent(class: Class, row: &Row) -> AreaExtent
    requires { class ≡ class_of row.now.header }
    ensures at { result.at
        ≡ row.now.offset + overhead_of (class_of row.now.header) row.now.header.protected }
    ensures size { result.size ≡ own_area row.now.header }
    ensures most { result.size ≤ most_frame_length }
    ensures whole { result.at + result.size
        ≡ row.now.offset + length_of (class_of row.now.header) row.now.header.slot }
{
    let front = row.front();
    let protected = front.protected();
    AreaExtent {
        at: u64::from(row.offset()) + u64::from(class.overhead(protected)),
        size: class.area_of(front.slot(), protected) as usize,
    }
}

/// Moves the header and side information `front` of a frame to its place in a plan: slot and
/// main_data_begin. The side information of a lost frame becomes all 0 except for main_data_begin.
// In place, since the compiler copies a return value byte by byte here.
#[inline(always)]
fn place_front(row: &Row, place: &Placed, front: &mut FrameFront)
    requires begin { place.now.begin < 2 ^ front_width (class_of row.now.header) 0 }
    requires same { front.old ≡ record { header = row.now.header; side = row.now.side } }
    ensures { front.new ≡ record {
      header = record row.now.header { slot = place.now.slot };
      side = record (row_side row.now) { main_data_begin = place.now.begin };
    } }
{
    if row.lost() {
        front.empty_side();
    }
    front.set_slot(place.slot);
    front.set_begin(place.begin);
}

impl<'a> Relay<'a> {
    /// Passes a frame to the writer.
    ///
    /// # Errors
    /// `Write` if a write failed.
    #[inline(always)]
    fn write_frame<D: Folder>(
        &self,
        folder: &mut D,
        frame: &Frame<'_, '_>,
        writer: &mut FrameQueue,
        unsent: &mut WriteBuffer,
    ) -> Result<(), PassFault>
        requires there { IsFileThere (D.seen folder.old).files self.now.pass.output.now }
        requires next { CanGiveFrame writer.old frame.now }
        ensures { TakesFrame self.now frame.now (writing_of writer.old unsent.old)
            (writing_of writer.new unsent.new) (D.seen folder.old) (D.seen folder.new) result }
    {
        match writer.frame(frame, folder, self.pass.output, unsent) {
            Ok(()) => Ok(()),
            Err(_) => Err(PassFault::Write),
        }
    }

    /// Passes a lead-in to the writer: an empty frame without a check word, otherwise with the
    /// header of the frame after it.
    ///
    /// # Errors
    /// `Write` if a write failed.
    fn lead_in<D: Folder>(
        &self,
        folder: &mut D,
        row: &Row,
        place: &Placed,
        writer: &mut FrameQueue,
        unsent: &mut WriteBuffer,
    ) -> Result<(), PassFault>
        requires there { IsFileThere (D.seen folder.old).files self.now.pass.output.now }
        requires class { class_of row.now.header ≡ writer.old.class }
        requires begin { place.now.begin ≤ reach_of writer.old }
        requires unsettled { IsNextSettled writer.old → ⊥ }
        ensures { TakesFrame self.now (lead_in_before place.now row.now.header)
            (writing_of writer.old unsent.old) (writing_of writer.new unsent.new)
            (D.seen folder.old) (D.seen folder.new) result }
    {
        let header = row.header().unprotected(place.slot);
        let side = Side::empty().with_begin(place.begin);
        let front = FrameFront::new(&header, &side);
        let frame = Frame::new(&front, Payload::empty());
        self.write_frame(folder, &frame, writer, unsent)
    }

    /// Reads `count` bytes of the input at offset `at` into the feed.
    ///
    /// # Errors
    /// `Read` or `Shrunk` if the input can't be read.
    #[inline(always)]
    fn fill<D: Folder>(
        &self,
        folder: &mut D,
        at: u64,
        count: usize,
        feed: &mut Feed,
    ) -> Result<(), PassFault>
        requires ready { IsRelayReady self.now (D.seen folder.old).files feed.old }
        requires few { count ≤ most_given }
        requires within { at + count ≤ (survey_view self.now.survey.now).length }
        ensures given { OnOk result (AreGivenBytes feed.new.given self.now.pass.input.now
            (D.seen folder.new).files at count) }
        ensures reads { RelayReadAnswer self.now feed.new (D.seen folder.old)
            (D.seen folder.new) result }
    {
        self.pass.fill(folder, at, count, feed)
    }

    /// Reads into the window the area that isn't in it yet.
    ///
    /// # Errors
    /// `Read` or `Shrunk` if the input can't be read.
    #[inline(never)]
    fn push_last<D: Folder>(
        &self,
        folder: &mut D,
        reading: &Reading,
        feed: &mut Feed,
        window: &mut Window,
    ) -> Result<(), PassFault>
        requires ready { IsRelayReady self.now (D.seen folder.old).files feed.old }
        requires over { HoldsUpTo self.now reading.now (D.seen folder.old).files window.old }
        ensures over { OnOk result ((at : ℕ) → at ≤ (survey_view self.now.survey.now).length
            → HoldsLastAreas window.new self.now.pass.input.now (D.seen folder.new).files
            (survey_view self.now.survey.now) at 0 reading.now.next) }
        ensures reads { RelayReadAnswer self.now feed.new (D.seen folder.old)
            (D.seen folder.new) result }
    {
        self.fill(folder, reading.at, reading.count, feed)?;
        window.push_area(feed.bytes());
        Ok(())
    }

    /// The offset of the first byte to be read for a frame, and how many bytes of the area before
    /// the frame are read with it: if the feed can't hold that area together with the frame's area
    /// `own`, it is read into the window first, and the number is 0.
    ///
    /// # Errors
    /// `Read` or `Shrunk` if the input can't be read.
    #[inline(always)]
    fn first_byte<D: Folder>(
        &self,
        folder: &mut D,
        reading: &Reading,
        own: AreaExtent,
        feed: &mut Feed,
        window: &mut Window,
    ) -> Result<(u64, usize), PassFault>
        requires ready { IsRelayReady self.now (D.seen folder.old).files feed.old }
        requires over { HoldsUpTo self.now reading.now (D.seen folder.old).files window.old }
        requires within { own.at + own.size ≤ (survey_view self.now.survey.now).length }
        requires few { own.size ≤ most_frame_length }
        ensures over { IfOk result (λ first. HoldsLastAreas window.new self.now.pass.input.now
            (D.seen folder.new).files (survey_view self.now.survey.now) first.0 first.1
            reading.now.next) }
        ensures near { IfOk result (λ first. (first.0 + first.1 ≤ own.at)
            × (own.at + own.size ≤ first.0 + most_given)) }
        ensures reads { RelayReadAnswer self.now feed.new (D.seen folder.old)
            (D.seen folder.new) result }
    {
        let end = reading.at + reading.count as u64;
        if reading.count > 0 && end <= own.at && own.at + own.size as u64 <= reading.at + 4096 {
            return Ok((reading.at, reading.count));
        }
        self.push_last(folder, reading, feed, window)?;
        Ok((own.at, 0))
    }

    /// Reads the area of a frame into the feed, together with the area of the frame before it if
    /// that isn't in the window.
    ///
    /// # Errors
    /// `Read` or `Shrunk` if the input can't be read.
    #[inline(always)]
    fn fill_frame<D: Folder>(
        &self,
        folder: &mut D,
        reading: &Reading,
        known: &NextFrame<'_>,
        feed: &mut Feed,
        window: &mut Window,
    ) -> Result<AreaSpan, PassFault>
        requires ready { IsRelayReady self.now (D.seen folder.old).files feed.old }
        requires next { IsNextFrame self.now reading.now known.now }
        requires over { HoldsUpTo self.now reading.now (D.seen folder.old).files window.old }
        ensures given { IfOk result (GivesArea self.now reading.now known.now.row.now
            (D.seen folder.new).files window.new feed.new.given) }
        ensures reads { RelayReadAnswer self.now feed.new (D.seen folder.old)
            (D.seen folder.new) result }
    {
        let own = area_extent(known.class, known.row);
        let (first, before) = self.first_byte(folder, reading, own, feed, window)?;
        let skip = (own.at - first) as usize;
        self.fill(folder, first, skip + own.size, feed)?;
        Ok(AreaSpan {
            before,
            skip,
            at: own.at,
        })
    }

    /// Reads the next frame and passes it to the writer.
    ///
    /// # Errors
    /// `Read` or `Shrunk` if the input can't be read, `Write` if a write failed.
    fn frame<D: Folder>(
        &self,
        folder: &mut D,
        reading: &Reading,
        known: &NextFrame<'_>,
        place: &Placed,
        buffers: &mut RelayBuffers,
    ) -> Result<Reading, PassFault>
        requires stands { IsRelayAtFrame self.now
            (D.seen folder.old).files buffers.old reading.now }
        requires few { reading.now.next < 2 ^ 62 }
        requires next { IsNextFrame self.now reading.now known.now }
        requires begin { place.now.begin ≤ reach_of buffers.old.writer }
        requires within { (need_of known.now.row.now).bytes ≤ place.now.begin
            + area_of (class_of known.now.row.now.header) place.now.slot
            known.now.row.now.header.protected }
        ensures next { IfOk result (λ behind. behind.next ≡ reading.now.next + 1) }
        ensures gives { RelayFramesAnswer self.now
            (relay_frame self.now reading.now.next known.now.row.now
            place.now) (own_reach self.now known.now.row.now place.now) buffers.old buffers.new
            (D.seen folder.old) (D.seen folder.new) result }
        ensures stands { IfOk result
            (IsRelayAtFrame self.now (D.seen folder.new).files buffers.new) }
    {
        let span = self.fill_frame(
            folder,
            reading,
            known,
            &mut buffers.feed,
            &mut buffers.window,
        )?;
        let bytes = buffers.feed.bytes();
        let before = &bytes[..span.before];
        let own = &bytes[span.skip..];
        let held = HeldAreas {
            window: &buffers.window,
            before,
            own,
        };
        let row = known.row;
        let extent = row.front().extent_in(known.class);
        let payload = cut_payload(self.survey, reading.next, row, &extent, &held);
        let taken = taken_before(before.len(), payload.len(), usize::from(extent.begin));
        let mut front = *row.front();
        place_front(row, place, &mut front);
        let area = known.class.area_of(place.slot, row.front().protected());
        let frame = Frame::with_area(&front, area, payload);
        self.write_frame(folder, &frame, &mut buffers.writer, &mut buffers.waiting)?;
        pass_area(&mut buffers.window, before, own.len(), taken);
        Ok(Reading {
            next: reading.next + 1,
            at: span.at,
            count: own.len(),
        })
    }

    /// Passes to the writer what is at a place of the plan: a lead-in before the next frame, or
    /// that frame.
    ///
    /// # Errors
    /// `Read` or `Shrunk` if the input can't be read, `Write` if a write failed.
    fn place<D: Folder>(
        &self,
        folder: &mut D,
        reading: &Reading,
        known: &NextFrame<'_>,
        place: &Placed,
        buffers: &mut RelayBuffers,
    ) -> Result<Reading, PassFault>
        requires stands { IsRelayAtFrame self.now
            (D.seen folder.old).files buffers.old reading.now }
        requires few { reading.now.next < 2 ^ 62 }
        requires next { IsNextFrame self.now reading.now known.now }
        requires begin { place.now.begin ≤ reach_of buffers.old.writer }
        requires within { placed_bytes place.now.lead_in (need_of known.now.row.now) ≤
            place.now.begin + placed_area place.now (need_of known.now.row.now) }
        ensures next { IfOk result (λ behind. behind.next
            ≡ reading.now.next + (if place.now.lead_in then 0 else 1)) }
        ensures gives { RelayFramesAnswer self.now
            (relay_planned_frame self.now reading.now.next known.now.row.now
            place.now) (placed_reach self.now known.now.row.now place.now) buffers.old buffers.new
            (D.seen folder.old) (D.seen folder.new) result }
        ensures stands { IfOk result
            (IsRelayAtFrame self.now (D.seen folder.new).files buffers.new) }
    {
        if place.lead_in {
            self.lead_in(
                folder,
                known.row,
                place,
                &mut buffers.writer,
                &mut buffers.waiting,
            )?;
            Ok(*reading)
        } else {
            self.frame(folder, reading, known, place, buffers)
        }
    }

    /// Reads the frames from frame `from` up to, but not including, frame `to`, and passes them to
    /// the writer as planned, with the lead-ins of the plan.
    ///
    /// # Errors
    /// `Read` or `Shrunk` if the input can't be read, `Write` if a write failed.
    fn frames<D: Folder>(
        &self,
        folder: &mut D,
        from: usize,
        to: usize,
        placed: &[Placed],
        buffers: &mut RelayBuffers,
    ) -> Result<(), PassFault>
        requires stands { IsRelayOpen self.now (D.seen folder.old).files buffers.old }
        requires ordered { from ≤ to }
        requires within { to ≤ length (survey_view self.now.survey.now).frames }
        requires over { IsWindowOverFrames buffers.old.window self.now.pass.input.now
            (D.seen folder.old).files (survey_view self.now.survey.now) from }
        requires fits { FitsRelayReach (reach_of buffers.old.writer) self.now from to placed.now }
        ensures gives { RelayFramesAnswer self.now (planned_frames self.now from to placed.now)
            (reach_behind_all (reach_of buffers.old.writer) self.now from to placed.now) buffers.old
            buffers.new (D.seen folder.old) (D.seen folder.new) result }
        ensures stands { OnOk result (IsRelayOpen self.now (D.seen folder.new).files buffers.new) }
    {
        let rows = self.survey.frames();
        let mut reading = Reading {
            next: from,
            at: 0,
            count: 0,
        };
        // Outside the loop, so that what depends on it alone is computed once.
        let class = self.survey.class();
        for place in placed {
            let known = NextFrame {
                class,
                row: &rows[reading.next],
            };
            reading = self.place(folder, &reading, &known, place, buffers)?;
        }
        Ok(())
    }

    /// Passes the frames of the input from frame `from` up to, but not including, frame `to` to the
    /// writer as the first of these places say, and returns how many places they take. The window
    /// may hold anything. It takes no memory.
    ///
    /// # Errors
    /// As `frames`.
    pub fn lay_range<D: Folder>(
        &self,
        folder: &mut D,
        from: usize,
        to: usize,
        placed: &[Placed],
        buffers: &mut RelayBuffers,
    ) -> Result<usize, PassFault>
        requires stands { IsRelayOpen self.now (D.seen folder.old).files buffers.old }
        requires ordered { from ≤ to }
        requires within { to ≤ length (survey_view self.now.survey.now).frames }
        requires fits { FitsRelayReach (reach_of buffers.old.writer) self.now from to
            (own_places (to - from) placed.now) }
        ensures gives { RelayFramesAnswer self.now (planned_frames self.now from to placed.now)
            (reach_behind_all (reach_of buffers.old.writer) self.now from to placed.now)
            buffers.old buffers.new (D.seen folder.old) (D.seen folder.new) result }
        ensures count { IfOk result (λ count. count ≡ places_for (to - from) placed.now) }
        ensures within { IfOk result (λ count. count ≤ length placed.now) }
        ensures stands { OnOk result (IsRelayOpen self.now (D.seen folder.new).files buffers.new) }
    {
        read_before(self, folder, from, &mut buffers.feed, &mut buffers.window)?;
        let count = places_for(to - from, placed);
        self.frames(folder, from, to, &placed[..count], buffers)?;
        Ok(count)
    }

    /// Forwards everything that waits in the writer to the buffer before the output. It takes no
    /// memory.
    ///
    /// # Errors
    /// `Write` if a write failed. Then a prefix of what waits was appended.
    pub fn finish<D: Folder>(
        &self,
        folder: &mut D,
        writer: &mut FrameQueue,
        unsent: &mut WriteBuffer,
    ) -> Result<(), PassFault>
        requires { IsFileThere (D.seen folder.old).files self.now.pass.output.now }
        ensures { ForwardAnswer self.now (unsent.old ++ held_bytes writer.old) unsent.new
            (D.seen folder.old) (D.seen folder.new) result }
    {
        match writer.finish(folder, self.pass.output, unsent) {
            Ok(()) => Ok(()),
            Err(_) => Err(PassFault::Write),
        }
    }

    /// Adds frames of the input to what waits for the output, in the slots and with the lead-ins of
    /// their plan, with all main data repacked. The writer is new; the window may hold anything. It
    /// takes no memory.
    ///
    /// # Errors
    /// `Read` if a read failed; `Shrunk`, with the length of the input when it was found and the
    /// length at which it ended when it was read, if a read gave no byte before the former;
    /// `Write` if a write failed. Then a prefix of what waited and of these bytes was appended,
    /// and with `Write` not all of them.
    pub(crate) fn lay<D: Folder>(
        &self,
        folder: &mut D,
        selected: &Selected,
        buffers: &mut RelayBuffers,
    ) -> Result<(), PassFault>
        requires ready { IsRelayReady self.now (D.seen folder.old).files buffers.old.feed }
        requires writable { IsWritableSelection (survey_view self.now.survey.now) selected.now }
        requires new { IsNewQueue (survey_view self.now.survey.now).class buffers.old.writer }
        ensures { AddMadeAnswer self.now (λ file. bytes_of_frames
            (selected_frames (survey_view self.now.survey.now) selected.now file))
            buffers.old.waiting
            buffers.new.waiting buffers.new.feed (D.seen folder.old) (D.seen folder.new) result }
    {
        let from = selected.from;
        read_before(self, folder, from, &mut buffers.feed, &mut buffers.window)?;
        self.frames(folder, from, selected.to, selected.plan.placed(), buffers)?;
        self.finish(folder, &mut buffers.writer, &mut buffers.waiting)
    }
}

/// Reads through the feed.
impl<'a> AreaSource for Relay<'a> {
    type Buffer = Feed;

    ghost way = { λ relay. route_of relay.pass };

    ghost fields = { λ relay. survey_view relay.survey.now };

    ghost CanRead = { IsRelayReady };

    fn survey(&self) -> &Survey {
        self.survey
    }

    fn push_area<D: Folder>(
        &self,
        folder: &mut D,
        offset: u64,
        header: &Header,
        feed: &mut Feed,
        window: &mut Window,
    ) -> Result<(), PassFault> {
        let at = offset + u64::from(header.overhead());
        self.fill(folder, at, header.area() as usize, feed)?;
        window.push_area(feed.bytes());
        Ok(())
    }

    ghost held = { λ relay files fed ready.
        record { there = ready.pass.source; exact = ready.exact; laid = ready.laid } };
}

/// How many places of a plan `frames` frames take, together with their lead-ins.
fn places_for(frames: usize, placed: &[Placed]) -> usize
    ensures places { result ≡ places_for frames placed.now }
    ensures within { result ≤ length placed.now }
{
    let mut left = frames;
    let mut count = 0;
    for place in placed {
        if left == 0 {
            return count;
        }
        if !place.lead_in {
            left -= 1;
        }
        count += 1;
    }
    count
}

/// The main data of frame `i`, in as few bytes as hold them. A lost frame has none.
#[inline]
fn cut_payload<'w>(
    survey: &Survey,
    i: usize,
    row: &Row,
    extent: &Extent,
    held: &HeldAreas<'w>,
) -> Payload<'w>
    requires { CanCutData (survey_view survey.now) i row.now extent.now held.now }
    ensures size { length result ≡ (need_of row.now).bytes }
    ensures told { (file passed : List ℕ)
        → length passed + length held.now.window.now + length held.now.before.now
        ≡ place (survey_view survey.now).head (survey_view survey.now).frames i
        → ((passed ++ held.now.window.now) ++ held.now.before.now) ++ held.now.own.now
        ≡ main_bytes file
        (survey_view survey.now).head (take (i + 1) (survey_view survey.now).frames)
        → result ≡ payload_of file (survey_view survey.now) i row.now }
    ensures few { length result ≤ window_size }
{
    if row.lost() {
        Payload::empty()
    } else {
        let begin = u32::from(extent.begin);
        held.window
            .main_data_with(held.before, held.own, begin, extent.bits)
    }
}

/// How many of the `before` bytes before a frame's own area are before the end of its main data.
/// The main data have `bytes` bytes and begin `begin` bytes before that area; if there are none,
/// the result is 0.
#[inline]
fn taken_before(before: usize, bytes: usize, begin: usize) -> usize
    requires few { (before ≤ 1939) × (bytes ≤ window_size) }
    ensures none { bytes ≡ 0 → result ≡ 0 }
    ensures some { 0 < bytes → result ≡ min before (before + bytes - begin) }
{
    if bytes == 0 {
        return 0;
    }
    (before + bytes).saturating_sub(begin).min(before)
}

/// A place in an area of `area` bytes that is no later than the first byte that later main data can
/// reach. The first `taken` bytes of the area are before the end of the last main data, `own` bytes
/// of areas follow it, and main data begin at most 511 bytes before their own area
/// (main_data_begin, ISO/IEC 11172-3 and 13818-3, 2.4.2.7). As the ring copies 32 bytes at a time,
/// the number of bytes from the place on is a multiple of 32, unless the area has fewer.
#[inline]
fn first_kept(area: usize, own: usize, taken: usize) -> usize
    requires within { taken ≤ area }
    requires few { area ≤ most_given }
    ensures within { result ≤ area }
    ensures many { min (most_back - own) (area - taken) ≤ area - result }
{
    let reach = (area - taken).min(511usize.saturating_sub(own));
    area - reach.next_multiple_of(32).min(area)
}

/// Clears the window unless later main data may reach it, as they may if no byte of the area after
/// it was taken or is left out.
#[inline]
fn forget_before(window: &mut Window, taken: usize, first: usize)
    requires few { taken + first ≤ most_waiting }
    ensures none { taken + first ≡ 0 → window.new ≡ window.old }
    ensures some { 0 < taken + first → window.new ≡ [] }
{
    if taken + first > 0 {
        window.clear();
    }
}

/// Adds to the window the part of an area that later main data can reach. `own` bytes of areas
/// follow it, and its first `taken` bytes are before the end of the last main data.
#[inline]
fn pass_area(window: &mut Window, area: &[u8], own: usize, taken: usize)
    requires within { taken ≤ length area.now }
    requires few { length area.now ≤ most_given }
    ensures { KeepsReach window.old window.new area.now own taken }
{
    let first = first_kept(area.len(), own, taken);
    forget_before(window, taken, first);
    window.push_area(&area[first..]);
}
