//! Where the tag of a file is.
ghost use Rattle.std.specs.Prelude.{◌≡◌, ◌≤◌, option_copied};
ghost use Rattle.std.specs.List.{find};
ghost use Rattle.sync_survey.specs.Faults.{survey_view, longest_file};
ghost use Rattle.sync_survey.specs.Survey.{IsSurveyLaidOut};
ghost use Rattle.moved_gains.specs.TagExtent.{is_tag, tag_block, tag_offset, tag_length, last_end};

use sync_survey::{Piece, Row, Survey};
use tag_blocks::Kind;

/// Where a tag is in a file, and how long it is, in bytes.
#[derive(Clone, Copy, Debug, PartialEq, Eq)]
pub struct TagExtent {
    /// The offset of the tag's block; if there is none, the end of the last frame, where a new one goes.
    pub offset: u64,
    /// The length of the block, 0 if there is none.
    pub length: u64,
}

/// Whether the block is an APEv2 tag.
fn is_tag(piece: &Piece) -> bool
    ensures { result ≡ is_tag piece.now }
{
    matches!(piece.block.kind, Kind::Ape)
}

/// The first of the blocks that is an APEv2 tag.
fn first_of(blocks: &[Piece]) -> Option<&Piece>
    ensures { option_copied result ≡ find is_tag blocks.now }
{
    blocks.iter().find(|piece| is_tag(piece))
}

/// The block of the file's tag: its first APEv2 block. `None` if the file has none.
pub fn first_tag(survey: &Survey) -> Option<Piece>
    ensures { result ≡ tag_block (survey_view survey.now) }
{
    first_of(survey.blocks()).copied()
}

/// The end of the last frame, 0 if there is none.
fn last_end(frames: &[Row]) -> u64
    requires { last_end frames.now ≤ longest_file }
    ensures { result ≡ last_end frames.now }
{
    match frames.last() {
        Some(row) => u64::from(row.offset()) + u64::from(row.header().length()),
        None => 0,
    }
}

/// The offset and the length of the file's tag, or where a new one goes: right after the last frame, with
/// length 0.
pub fn tag_extent(survey: &Survey) -> TagExtent
    requires { IsSurveyLaidOut (survey_view survey.now) }
    ensures offset { result.offset ≡ tag_offset (survey_view survey.now) }
    ensures length { result.length ≡ tag_length (survey_view survey.now) }
{
    match first_tag(survey) {
        Some(piece) => TagExtent {
            offset: piece.offset,
            length: piece.block.length,
        },
        None => TagExtent {
            offset: last_end(survey.frames()),
            length: 0,
        },
    }
}
