//! The lines of a sheet, and the words of a line.
ghost use Rattle.std.specs.Prelude.{◌≡◌, ◌+◌, ◌<◌, ◌≤◌, ◌==◌, [], ◌∷◌, length, MatchOption};
ghost use Rattle.std.specs.List.{prefix_len, position_or_len, before_first, after_first};
ghost use Rattle.std.specs.Str.Lines.{strip_carriage_return};
ghost use Rattle.cue_sheet.specs.Lines.{is_blank, words_of, lines_from, HasNotTwo, without_mark};

use crate::digits::position_of;

/// A line, without one carriage return at its end, and where the next one begins.
#[derive(Clone, Copy)]
pub struct LineAt<'a> {
    pub line: &'a [u8],
    pub next: usize,
}

/// The line that begins at byte `at`. Lines end with a line feed or at the end of the text.
pub fn line_at(text: &[u8], at: usize) -> LineAt<'_>
    requires { at ≤ length text.now }
    ensures line { lines_from text.now at ≡ result.line.now ∷ lines_from text.now result.next }
    ensures on { at < result.next }
    ensures within { result.next ≤ length text.now + 1 }
{
    let line = text_before(&text[at..], b'\n');
    LineAt {
        line: without_return(line),
        next: at + line.len() + 1,
    }
}

/// The bytes without a byte order mark at their beginning.
pub fn without_mark(bytes: &[u8]) -> &[u8]
    ensures { result.now ≡ without_mark bytes.now }
{
    match bytes {
        [0xef, 0xbb, 0xbf, rest @ ..] => rest,
        _ => bytes,
    }
}

/// What is before the first such byte, or all of the text where there is none.
pub fn text_before(text: &[u8], byte: u8) -> &[u8]
    ensures { result.now ≡ before_first (λ b. b == byte) text.now }
{
    &text[..position_of(text, byte)]
}

/// What is after the first such byte, or nothing where there is none.
pub fn text_after(text: &[u8], byte: u8) -> &[u8]
    ensures { result.now ≡ after_first (λ b. b == byte) text.now }
{
    let end = position_of(text, byte);
    if end == text.len() {
        return &[];
    }
    &text[end + 1..]
}

/// The line without one carriage return at its end.
fn without_return(line: &[u8]) -> &[u8]
    ensures { result.now ≡ strip_carriage_return line.now }
{
    match line {
        [front @ .., b'\r'] => front,
        _ => line,
    }
}

fn is_blank(byte: u8) -> bool
    ensures { result ≡ is_blank byte }
{
    byte == b' ' || byte == b'\t'
}

/// How many blanks the text begins with.
fn blanks(text: &[u8]) -> usize
    ensures blanks { result ≡ prefix_len is_blank text.now }
    ensures within { result ≤ length text.now }
{
    let mut count = 0;
    while count < text.len() && is_blank(text[count]) {
        count += 1;
    }
    count
}

/// How many bytes are before the first blank, or in all where there is none.
fn word_length(text: &[u8]) -> usize
    ensures word { result ≡ position_or_len is_blank text.now }
    ensures within { result ≤ length text.now }
{
    let mut count = 0;
    while count < text.len() && !is_blank(text[count]) {
        count += 1;
    }
    count
}

/// A word and what is after it.
#[derive(Clone, Copy)]
pub struct Word<'a> {
    pub word: &'a [u8],
    pub rest: &'a [u8],
}

/// The first word of a line. `None` exactly where there is none.
pub fn next_word(line: &[u8]) -> Option<Word<'_>>
    ensures { MatchOption result
        (words_of line.now ≡ [])
        (λ word. words_of line.now ≡ word.word.now ∷ words_of word.rest.now) }
{
    let text = &line[blanks(line)..];
    if text.is_empty() {
        return None;
    }
    let end = word_length(text);
    Some(Word {
        word: &text[..end],
        rest: &text[end..],
    })
}

/// The two words of a line. `None` exactly where it has fewer or more.
pub fn read_pair(line: &[u8]) -> Option<(&[u8], &[u8])>
    ensures { MatchOption result
        (HasNotTwo (words_of line.now))
        (λ pair. words_of line.now ≡ pair.0.now ∷ pair.1.now ∷ []) }
{
    let first = next_word(line)?;
    let second = next_word(first.rest)?;
    if next_word(second.rest).is_some() {
        return None;
    }
    Some((first.word, second.word))
}
