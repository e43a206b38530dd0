//! The second pass over an input: it is read from beginning to end, and written with the gains of
//! its frames moved, except those of lost frames, and with another tag if that changes.
ghost use Rattle.std.specs.Prelude.{◌≡◌, ◌≢◌, ◌+◌, ◌<◌, ◌≤◌, ◌^◌, List, ℕ, length, IfOk, IfErr, OnOk, Ok};
ghost use Rattle.frame_header.specs.Tables.{class_of};
ghost use Rattle.outside.specs.Files.{IsFileThere};
ghost use Rattle.outside.specs.Seen.{OnFile};
ghost use Rattle.outside.specs.Pass.{IsPassReady, WritesMadeBytes, WritesPrefix, AppendsMadeBytes, AppendsPrefix, route, route_of, HasPassCause};
ghost use Rattle.sync_survey.specs.Faults.{survey_view};
ghost use Rattle.sync_survey.specs.Survey.{survey_of, FramesAreLaid, IsSurveyLaidOut};
ghost use Rattle.moved_gains.specs.Buffers.{IsPassingFresh};
ghost use Rattle.sync_survey.specs.Limits.{most_frames};
ghost use Rattle.moved_gains.specs.Change.{file_with_change, change_in};
ghost use Rattle.moved_gains.specs.Course.{steps_at_offset, AreRowsNumbered};
ghost use Rattle.moved_gains.specs.Moving.{row_end, IsRowOf, AreRowsOf, AreFramesOfClass, moved_row_bytes, bytes_around, copied_bytes, bytes_written_from, IsNewTag};
ghost use Rattle.outside.specs.Pass.{PassMakes};
ghost use Rattle.moved_gains.specs.Passing.{MoveFrameAnswer, MoveFramesAnswer, ChangedAnswer};

use crate::buffers::GainBuffers;
use crate::change::Change;
use crate::course::Course;
use crate::front::{MovedRow, frame_length};
use crate::tag_extent;
use frame_header::Class;
use outside::{Folder, Pass, PassFault};
use sync_survey::{Row, Survey};

/// The bytes of a new tag, and the offsets in the input where what they replace begins and ends.
#[derive(Clone, Copy)]
struct NewTag<'a> {
    at: u64,
    end: u64,
    bytes: &'a [u8],
}

/// A pass that moves gains.
#[derive(Drop)]
struct GainPass<'a> {
    pass: Pass<'a>,
    /// The class of all frames.
    class: Class,
    course: &'a Course,
    /// The new tag, if that changes.
    tag: Option<NewTag<'a>>,
}

impl<'a> GainPass<'a> {
    /// Copies the bytes from one offset up to another, with the new tag if what it replaces is among them.
    ///
    /// # Errors
    /// `Read` or `Shrunk` if the input can't be read, `Write` if a write failed.
    #[inline]
    fn copy<D: Folder>(
        &self,
        folder: &mut D,
        from: u64,
        to: u64,
        buffers: &mut GainBuffers,
    ) -> Result<(), PassFault>
        requires ready { IsPassReady self.now.pass (D.seen folder.old).files buffers.old.feed }
        requires ordered { from ≤ to }
        requires within { to ≤ self.now.pass.length }
        ensures { PassMakes self.now.pass (λ file. copied_bytes self.now.tag file from to)
            buffers.old.waiting buffers.new.waiting buffers.new.feed (D.seen folder.old)
            (D.seen folder.new) result }
    {
        match &self.tag {
            Some(tag) if from <= tag.at && tag.at <= tag.end && tag.end <= to => {
                self.copy_around(folder, from, tag, to, buffers)
            }
            _ => buffers.copy(folder, &self.pass, from, to),
        }
    }

    /// Copies the bytes from one offset up to another, with a new tag instead of what it replaces
    /// among them.
    ///
    /// # Errors
    /// `Read` or `Shrunk` if the input can't be read, `Write` if a write failed.
    #[inline(never)]
    fn copy_around<D: Folder>(
        &self,
        folder: &mut D,
        from: u64,
        tag: &NewTag,
        to: u64,
        buffers: &mut GainBuffers,
    ) -> Result<(), PassFault>
        requires ready { IsPassReady self.now.pass (D.seen folder.old).files buffers.old.feed }
        requires ordered { from ≤ tag.now.at }
        requires around { tag.now.at ≤ tag.now.end }
        requires behind { tag.now.end ≤ to }
        requires within { to ≤ self.now.pass.length }
        ensures { PassMakes self.now.pass (bytes_around tag.now from to) buffers.old.waiting
            buffers.new.waiting buffers.new.feed (D.seen folder.old) (D.seen folder.new) result }
    {
        buffers.copy(folder, &self.pass, from, tag.at)?;
        buffers.push(folder, &self.pass, tag.bytes)?;
        buffers.copy(folder, &self.pass, tag.end, to)
    }

    /// Copies a frame, with its gains moved if it isn't lost, and returns the offset at which it
    /// ends.
    ///
    /// # Errors
    /// `Read` or `Shrunk` if the input can't be read, `Write` if a write failed.
    #[inline]
    fn move_frame<D: Folder>(
        &self,
        folder: &mut D,
        moved: &MovedRow,
        buffers: &mut GainBuffers,
    ) -> Result<u64, PassFault>
        requires ready { IsPassReady self.now.pass (D.seen folder.old).files buffers.old.feed }
        requires class { class_of moved.now.row.now.header ≡ self.now.class }
        requires within { row_end moved.now.row.now ≤ self.now.pass.length }
        requires told { OnFile (D.seen folder.old) self.now.pass.input.now
            (λ file. IsRowOf file moved.now.row.now) }
        ensures { MoveFrameAnswer self.now.pass (λ file. moved_row_bytes moved.now.steps file
            moved.now.row.now) (row_end moved.now.row.now) buffers.old buffers.new
            (D.seen folder.old) (D.seen folder.new) result }
    {
        let row = moved.row;
        let length = frame_length(self.class, row);
        let at = u64::from(row.offset());
        buffers.fill(folder, &self.pass, at, length as usize)?;
        buffers.pass_moved(self.class, moved, length as usize);
        Ok(at + u64::from(length))
    }

    /// Copies the input from offset `from` on, with the gains of these frames moved.
    ///
    /// # Errors
    /// `Read` or `Shrunk` if the input can't be read, `Write` if a write failed.
    #[inline(never)]
    fn move_frames<D: Folder>(
        &self,
        folder: &mut D,
        from: u64,
        rows: &[Row],
        buffers: &mut GainBuffers,
    ) -> Result<(), PassFault>
        requires ready { IsPassReady self.now.pass (D.seen folder.old).files buffers.old.feed }
        requires laid { FramesAreLaid from rows.now self.now.pass.length }
        requires classed { AreFramesOfClass self.now.class rows.now }
        requires numbered { AreRowsNumbered rows.now }
        requires few { length rows.now < 2 ^ 32 }
        requires told { OnFile (D.seen folder.old) self.now.pass.input.now
            (λ file. AreRowsOf file rows.now) }
        ensures { MoveFramesAnswer self.now.pass (λ file. bytes_written_from
            (steps_at_offset self.now.course.now rows.now) self.now.tag file from rows.now)
            buffers.old buffers.new (D.seen folder.old) (D.seen folder.new) result }
    {
        let mut at = from;
        let mut near = 0;
        for (frame, row) in rows.iter().enumerate() {
            self.copy(folder, at, u64::from(row.offset()), buffers)?;
            let steps = self.course.steps(frame as u32, &mut near);
            at = self.move_frame(folder, &MovedRow { row, steps }, buffers)?;
        }
        self.copy(folder, at, self.pass.length, buffers)
    }
}

/// The new tag of a change, which replaces the input's, if the tag changes.
fn new_tag<'a>(survey: &Survey, change: &'a Change) -> Option<NewTag<'a>>
    requires { IsSurveyLaidOut (survey_view survey.now) }
    ensures { IsNewTag (survey_view survey.now)
        (change_in change.now (survey_view survey.now)) result }
{
    let bytes = change.tag.as_ref()?;
    let extent = tag_extent(survey);
    Some(NewTag {
        at: extent.offset,
        end: extent.offset + extent.length,
        bytes,
    })
}

/// Appends the input to the output, with its gains moved, except those of lost frames, with the new tag if
/// that changes, and without its junk. It takes no memory.
///
/// # Errors
/// `Read` if a read failed; `Shrunk`, with the length of the input when it was found and the
/// length at which it ended when it was read, if a read gave no byte before the former; `Write`
/// if a write failed. Then a prefix of the bytes was appended, and with `Write` not all of them.
pub fn write_changed<D: Folder>(
    folder: &mut D,
    input: &str,
    output: &str,
    survey: &Survey,
    change: &Change,
    buffers: &mut GainBuffers,
) -> Result<(), PassFault>
    requires apart { input.now ≢ output.now }
    requires source { IsFileThere (D.seen folder.old).files input.now }
    requires target { IsFileThere (D.seen folder.old).files output.now }
    requires laid { IsSurveyLaidOut (survey_view survey.now) }
    requires exact { OnFile (D.seen folder.old) input.now
        (λ file. survey_of file most_frames ≡ Ok (survey_view survey.now)) }
    requires fresh { IsPassingFresh buffers.old (D.seen folder.old).files input.now }
    ensures { ChangedAnswer (route input.now output.now (survey_view survey.now).length)
        (λ file. file_with_change (change_in change.now (survey_view survey.now)) file
        (survey_view survey.now)) (D.seen folder.old) (D.seen folder.new) result }
{
    let pass = Pass {
        input,
        output,
        length: survey.length(),
    };
    let gains = GainPass {
        pass,
        class: survey.class(),
        course: &change.course,
        tag: new_tag(survey, change),
    };
    let (junk, _) = survey.junk();
    gains.copy(folder, 0, junk, buffers)?;
    gains.move_frames(folder, survey.first(), survey.frames(), buffers)?;
    buffers.finish(folder, &pass)
}
