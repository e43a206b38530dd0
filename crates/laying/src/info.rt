//! The fields of the Info frame before the frames of a plan.
ghost use Rattle.std.specs.Prelude.{◌≡◌, ◌<◌, ◌≤◌, List, ℕ, length, drop, map, replicate, slice_get, None, Some, Ok, IfOk, IfErr, OnOk, IsErrOf};
ghost use Rattle.frame_header.specs.Limits.{most_output_frames};
ghost use Rattle.outside.specs.Files.{IsFileThere};
ghost use Rattle.outside.specs.Counts.{OnlyReads};
ghost use Rattle.outside.specs.Seen.{OnFile};
ghost use Rattle.outside.specs.Pass.{HasInputCause};
ghost use Rattle.info_header.specs.Info.{info_in};
ghost use Rattle.info_header.specs.InfoFrame.{info_frame};
ghost use Rattle.frame_writer.specs.Frames.{Frame};
ghost use Rattle.sync_survey.specs.Row.{Row};
ghost use Rattle.sync_survey.specs.Faults.{survey_view};
ghost use Rattle.sync_survey.specs.Survey.{IsSurveyLaidOut};
ghost use Rattle.slot_plan.specs.declared.needs.Placed.{Placed as PlacedFields};
ghost use Rattle.laying.specs.LaidFiles.{HasInfoSizes};
ghost use Rattle.laying.specs.Written.{slot_in, info_for, head_info};
ghost use Rattle.laying.specs.KeptFields.{HeadAnswer, KeptAnswer};
ghost use Rattle.laying.specs.Surveys.{CanBeRelaid};

use arrayvec::ArrayVec;
use frame_header::Class;
use info_header::{Info, info_over, write_info};
use outside::{Folder, PassFault, read_exact};
use slot_plan::Placed;
use sync_survey::Survey;

/// What an Info frame takes over from the head of an input: its quality and the 36 bytes of its
/// extension.
#[derive(Clone, Copy, Debug, PartialEq, Eq)]
pub struct Kept {
    pub quality: Option<u32>,
    pub extension: [u8; 36],
}

impl Kept {
    /// No quality, and an extension that is all 0.
    pub fn none() -> Kept
        ensures { result ≡ record { quality = None; extension = replicate 36 0 } }
    {
        Kept {
            quality: None,
            extension: [0; 36],
        }
    }

    /// The quality and the extension of these fields.
    fn of(info: &Info) -> Kept
        ensures quality { result.quality ≡ info.now.quality }
        ensures extension { result.extension ≡ info.now.extension }
    {
        Kept {
            quality: info.quality,
            extension: info.extension,
        }
    }
}

/// An array has as many bytes as its type says. The function does nothing: its contract gives that
/// to a proof.
pub fn has_all<const N: usize>(array: &[u8; N])
    ensures { length array.now ≡ N }
{
    let _ = array;
}

/// The sizes of fields are those of their types. Like `has_all`, it is there for its contract.
fn are_sized(info: &Info)
    ensures { HasInfoSizes info.now }
{
    if let Some(table) = &info.table {
        has_all(table);
    }
}

/// The fields of the Info frame before the frames of a plan of at most 2,900,064 places: how many
/// frames there are, the bytes of the Info frame and of all of them, the seek table, and what is
/// kept from a head. The text is `Info` if all have one bit rate, otherwise `Xing`.
pub fn info_for(class: Class, placed: &[Placed], kept: &Kept) -> Info
    requires few { length placed.now ≤ most_output_frames }
    ensures info { (frames : List Frame) → map slot_in frames ≡ map
        (λ (p : PlacedFields). p.slot) placed.now
        → result ≡ info_for class frames kept.now.quality kept.now.extension }
    ensures sizes { HasInfoSizes result }
{
    let info = Info {
        quality: kept.quality,
        extension: kept.extension,
        ..info_over(class, placed)
    };
    are_sized(&info);
    info
}

/// The bytes of the Info frame before frames of a surveyed input in the slots of a plan of at most
/// 2,900,064 places. The first of these frames is frame `from`, whose header the Info frame has.
pub fn info_bytes(
    survey: &Survey,
    from: usize,
    kept: &Kept,
    placed: &[Placed],
) -> ArrayVec<u8, 1441>
    requires within { from < length (survey_view survey.now).frames }
    requires few { length placed.now ≤ most_output_frames }
    ensures { (first : Row) (frames : List Frame)
        → slice_get (survey_view survey.now).frames from ≡ Some first
        → map slot_in frames ≡ map (λ (p : PlacedFields). p.slot) placed.now
        → result.items ≡ info_frame first.header (info_for (survey_view survey.now).class frames
        kept.now.quality kept.now.extension) }
{
    let fields = info_for(survey.class(), placed, kept);
    let first = &survey.frames()[from].header();
    let mut info = ArrayVec::new();
    write_info(first, &fields, &mut info);
    info
}

/// The fields in the bytes of a head's frame. Its text is at byte `text_at`.
fn fields_in(frame: &[u8], text_at: u32) -> Info
    ensures { result ≡ info_in (drop text_at frame.now) }
{
    let at = (text_at as usize).min(frame.len());
    Info::read(&frame[at..])
}

/// The fields of the head of an input, or `None` if there is no head. It reads the head's frame, at
/// most 1,441 bytes, and takes no memory. The files stay as they are.
///
/// # Errors
/// None without a head, otherwise:
/// - `Read` if a read failed;
/// - `Shrunk`, with the length of the input when it was found and the length at which it ended when
///   it was read, if a read gave no byte before the former. It occurs only in a folder whose
///   contents aren't known.
pub fn head_fields<D: Folder>(
    folder: &mut D,
    name: &str,
    survey: &Survey,
) -> Result<Option<Info>, PassFault>
    requires there { IsFileThere (D.seen folder.old).files name.now }
    requires laid { IsSurveyLaidOut (survey_view survey.now) }
    requires exact { OnFile (D.seen folder.old) name.now
        (λ file. CanBeRelaid file (survey_view survey.now)) }
    ensures { HeadAnswer name.now (survey_view survey.now) (D.seen folder.old)
        (D.seen folder.new) result }
{
    let Some(head) = survey.head() else {
        return Ok(None);
    };
    let length = head.header.length();
    let mut room = [0; 1441];
    let frame = &mut room[..length as usize];
    read_exact(folder, name, survey.length(), head.offset, frame)?;
    Ok(Some(fields_in(frame, head.text_at)))
}

/// The quality and the extension of the head of an input, or `Kept::none` if there is no head. It
/// reads the head's frame, at most 1,441 bytes, and takes no memory. The files stay as they are.
///
/// # Errors
/// None without a head, otherwise:
/// - `Read` if a read failed;
/// - `Shrunk`, with the length of the input when it was found and the length at which it ended when
///   it was read, if a read gave no byte before the former. It occurs only in a folder whose
///   contents aren't known.
pub fn kept_fields<D: Folder>(
    folder: &mut D,
    name: &str,
    survey: &Survey,
) -> Result<Kept, PassFault>
    requires there { IsFileThere (D.seen folder.old).files name.now }
    requires laid { IsSurveyLaidOut (survey_view survey.now) }
    requires exact { OnFile (D.seen folder.old) name.now
        (λ file. CanBeRelaid file (survey_view survey.now)) }
    ensures { KeptAnswer name.now (survey_view survey.now) (D.seen folder.old)
        (D.seen folder.new) result }
{
    match head_fields(folder, name, survey)? {
        Some(info) => Ok(Kept::of(&info)),
        None => Ok(Kept::none()),
    }
}
