//! What a line of a sheet says.
ghost use Rattle.std.specs.Prelude.{◌≡◌};
ghost use Rattle.cue_sheet.specs.Lines.{words_of};
ghost use Rattle.fade_plan.specs.Sheets.{fade_entry_of, point_of, is_comment, IsFadeEntry};

use cue_sheet::Place;
use cue_sheet::digits::read_steps;
use cue_sheet::words::{next_word, read_pair};

/// What a line says by itself.
#[derive(Clone, Copy)]
pub(crate) enum FadeEntry {
    /// A line without words, or a comment.
    Passed,
    /// A point: its position, and its steps.
    At(Place, i16),
    /// A line that breaks its rule.
    Broken,
}

fn is_comment(word: &[u8]) -> bool
    ensures { result ≡ is_comment word.now }
{
    matches!(word, [b'#', ..])
}

/// A line that is a point: a position and steps.
fn read_point(line: &[u8]) -> FadeEntry
    ensures point { result ≡ point_of (words_of line.now) }
    ensures sound { IsFadeEntry result }
{
    let Some((place, steps)) = read_pair(line) else {
        return FadeEntry::Broken;
    };
    match (Place::of_word(place), read_steps(steps)) {
        (Some(place), Some(steps)) => FadeEntry::At(place, steps),
        _ => FadeEntry::Broken,
    }
}

/// What a line says by itself.
#[tactic(auto, unfolding(crate::specs::Sheets::fade_entry_of))]
pub(crate) fn read_entry(line: &[u8]) -> FadeEntry
    ensures entry { result ≡ fade_entry_of (words_of line.now) }
    ensures sound { IsFadeEntry result }
{
    match next_word(line) {
        Some(first) if !is_comment(first.word) => read_point(line),
        _ => FadeEntry::Passed,
    }
}
