//! The areas of the frames of a surveyed input, read into a window.
ghost use Rattle.std.specs.Prelude.{◌≡◌, ◌⊎◌, ◌+◌, ◌<◌, ◌≤◌, [], length, OnOk};
ghost use Rattle.frame_header.specs.Tables.{class_of, length_of};
ghost use Rattle.outside.specs.Files.{Files};
ghost use Rattle.outside.specs.Pass.{Route};
ghost use Rattle.sync_survey.specs.Faults.{survey_view, SurveyFields};
ghost use Rattle.sync_survey.specs.MainData.{place};
ghost use Rattle.reservoir.specs.Window.{IsWindowOver, window_size};
ghost use Rattle.laying.specs.Areas.{IsHeld, ReadsInput, ReadsArea};
ghost use Rattle.laying.specs.Passing.{IsWindowOverFrames, IsWindowOverLast};

use frame_header::Header;
use outside::{Folder, PassFault};
use reservoir::Window;
use sync_survey::Survey;

/// A surveyed input whose areas can be read, and what their bytes are read through.
pub trait AreaSource {
    /// What bytes are read through.
    type Buffer;

    /// From which file to which the bytes go.
    ghost way: { Self → Route };

    /// What is known of the input.
    ghost fields: { Self → SurveyFields };

    /// That the areas can be read.
    ghost CanRead: { Self → Files → Self.Buffer → Type 0 };

    /// The survey of the input.
    fn survey(&self) -> &Survey
        ensures { survey_view result.now ≡ fields self.now };

    /// Adds to the window the area of a frame with this header, which begins at this offset.
    ///
    /// # Errors
    /// `Read` or `Shrunk` if the input can't be read.
    fn push_area<D: Folder>(
        &self,
        folder: &mut D,
        offset: u64,
        header: &Header,
        buffer: &mut Self::Buffer,
        window: &mut Window,
    ) -> Result<(), PassFault>
        requires ready { CanRead self.now (D.seen folder.old).files buffer.old }
        requires within { offset + length_of (class_of header.now) header.now.slot
            ≤ (fields self.now).length }
        ensures area { OnOk result (ReadsArea (way self.now).input (D.seen folder.new).files offset
            header.now window.old window.new) }
        ensures reads { ReadsInput (way self.now) (D.seen folder.old) (D.seen folder.new) result }
        ensures ready { CanRead self.now (D.seen folder.new).files buffer.new };

    /// The input is there, with a survey by which its frames can be read.
    ghost held: { (s : Self) (files : Files) (buffer : Self.Buffer) → CanRead s files buffer
        → IsHeld files (way s).input (fields s) };
}

/// Begins to read the areas of the frames from frame `first` on: reads the head's area if that is
/// the first frame of all.
///
/// # Errors
/// `Read` or `Shrunk` if the input can't be read.
fn begin_at<S: AreaSource, D: Folder>(
    source: &S,
    folder: &mut D,
    first: usize,
    buffer: &mut S::Buffer,
    window: &mut Window,
) -> Result<(), PassFault>
    requires ready { S.CanRead source.now (D.seen folder.old).files buffer.old }
    requires none { IsWindowOver window.old [] }
    ensures over { OnOk result (IsWindowOverLast window.new (S.way source.now).input
        (D.seen folder.new).files (S.fields source.now) first first) }
    ensures reads { ReadsInput (S.way source.now) (D.seen folder.old) (D.seen folder.new) result }
    ensures ready { S.CanRead source.now (D.seen folder.new).files buffer.new }
{
    if first > 0 {
        return Ok(());
    }
    let Some(head) = source.survey().head() else {
        return Ok(());
    };
    source.push_area(folder, head.offset, &head.header, buffer, window)
}

/// Fills the window, whatever it held, with the last 2,048 bytes of the areas of the head and of
/// all frames before frame `i`, or with all of them if there are fewer.
///
/// # Errors
/// `Read` or `Shrunk` if the input can't be read.
pub fn read_before<S: AreaSource, D: Folder>(
    source: &S,
    folder: &mut D,
    i: usize,
    buffer: &mut S::Buffer,
    window: &mut Window,
) -> Result<(), PassFault>
    requires ready { S.CanRead source.now (D.seen folder.old).files buffer.old }
    requires within { i ≤ length (S.fields source.now).frames }
    ensures over { OnOk result (IsWindowOverFrames window.new (S.way source.now).input
        (D.seen folder.new).files (S.fields source.now) i) }
    ensures reads { ReadsInput (S.way source.now) (D.seen folder.old) (D.seen folder.new) result }
    ensures ready { S.CanRead source.now (D.seen folder.new).files buffer.new }
{
    window.clear();
    let survey = source.survey();
    let first = first_held(survey, i);
    begin_at(source, folder, first, buffer, window)?;
    let rows = survey.frames();
    let mut at = first;
    while at < i {
        let row = &rows[at];
        source.push_area(
            folder,
            u64::from(row.offset()),
            &row.header(),
            buffer,
            window,
        )?;
        at += 1;
    }
    Ok(())
}

/// The frame from whose area on a window has to be filled before frame `i`: the areas from there up
/// to frame `i` have at least 2,048 bytes, or it is the first frame of all.
fn first_held(survey: &Survey, i: usize) -> usize
    requires within { i ≤ length (survey_view survey.now).frames }
    ensures before { result ≤ i }
    ensures held { (result ≡ 0)
        ⊎ (place (survey_view survey.now).head (survey_view survey.now).frames result
        + window_size ≤ place (survey_view survey.now).head (survey_view survey.now).frames i) }
{
    let rows = survey.frames();
    let mut first = i;
    let mut bytes = 0;
    while first > 0 && bytes < 2048 {
        first -= 1;
        bytes += rows[first].header().area();
    }
    first
}
