//! What a line of a sheet says.
ghost use Rattle.std.specs.Prelude.{◌≡◌, ◌∷◌};
ghost use Rattle.cue_sheet.specs.Lines.{words_of};
ghost use Rattle.cue_sheet.specs.Entries.{is_word, is_track_number, sheet_time, track_of, index_of, cue_entry_of, two_word_entry};

use crate::digits::read_number;
use crate::words::{next_word, read_pair, text_after, text_before};

/// What a line says by itself, regardless of the lines before it.
#[derive(Clone, Copy)]
pub(crate) enum CueEntry {
    /// A line that isn't read.
    Passed,
    File,
    Track,
    /// An index whose number isn't 1.
    Index,
    /// An index with number 1, at a time in parts of 1/75 second.
    Start(u32),
    /// A line that breaks the rule of its kind.
    Broken,
}

/// Whether the word is this keyword, compared ignoring ASCII case.
fn is_word(word: &[u8], keyword: &[u8]) -> bool
    ensures { result ≡ is_word word.now keyword.now }
{
    word.eq_ignore_ascii_case(keyword)
}

/// Whether these are one or two digits that spell a number from 1 to 99.
fn is_track_number(digits: &[u8]) -> bool
    ensures { result ≡ is_track_number digits.now }
{
    match read_number(digits, 1, 2, 99) {
        Some(number) => number >= 1,
        None => false,
    }
}

/// A time, `mm:ss:ff`, in parts of 1/75 second.
#[tactic(auto, unfolding(crate::specs::Entries::sheet_time))]
fn read_time(word: &[u8]) -> Option<u32>
    ensures time { result ≡ sheet_time word.now }
{
    let rest = text_after(word, b':');
    let minutes = read_number(text_before(word, b':'), 2, 4, 9_999)?;
    let seconds = read_number(text_before(rest, b':'), 2, 2, 59)?;
    let frames = read_number(text_after(rest, b':'), 2, 2, 74)?;
    Some((60 * minutes + seconds) * 75 + frames)
}

/// What is after `TRACK`: a number and `AUDIO`.
fn read_track(rest: &[u8]) -> CueEntry
    ensures { result ≡ two_word_entry track_of (words_of rest.now) }
{
    match read_pair(rest) {
        Some((number, kind)) if is_track_number(number) && is_word(kind, b"AUDIO") =>
            CueEntry::Track,
        _ => CueEntry::Broken,
    }
}

/// An index with this number at this time.
fn index_at(number: &[u8], time: &[u8]) -> CueEntry
    ensures { result ≡ index_of number.now time.now }
{
    match (read_number(number, 1, 2, 99), read_time(time)) {
        (Some(1), Some(time)) => CueEntry::Start(time),
        (Some(_), Some(_)) => CueEntry::Index,
        _ => CueEntry::Broken,
    }
}

/// What is after `INDEX`: a number and a time.
fn read_index(rest: &[u8]) -> CueEntry
    ensures { result ≡ two_word_entry index_of (words_of rest.now) }
{
    match read_pair(rest) {
        Some((number, time)) => index_at(number, time),
        None => CueEntry::Broken,
    }
}

/// What a line says, by its first word and what is after it.
#[tactic(auto, unfolding(crate::specs::Entries::cue_entry_of))]
fn entry_behind(first: &[u8], rest: &[u8]) -> CueEntry
    ensures { result ≡ cue_entry_of (first.now ∷ words_of rest.now) }
{
    if is_word(first, b"FILE") {
        return CueEntry::File;
    }
    if is_word(first, b"TRACK") {
        return read_track(rest);
    }
    if is_word(first, b"INDEX") {
        return read_index(rest);
    }
    CueEntry::Passed
}

/// What a line says by itself.
#[tactic(auto, unfolding(crate::specs::Entries::cue_entry_of))]
pub(crate) fn read_entry(line: &[u8]) -> CueEntry
    ensures { result ≡ cue_entry_of (words_of line.now) }
{
    match next_word(line) {
        Some(first) => entry_behind(first.word, first.rest),
        None => CueEntry::Passed,
    }
}
