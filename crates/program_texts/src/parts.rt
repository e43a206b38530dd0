//! Lines as lists of parts, and how they are sent.
ghost use Rattle.std.specs.Prelude.{◌≡◌, ◌≤◌, ◌<◌, ◌+◌, ◌%◌, ◌++◌, ◌∷◌, [], OnOk, OnErr, length, map, flat_map};
ghost use Rattle.program_texts.specs.Lines.{hex_digit, hex_word, Text, Number, Name, part_text, text_of_line, line_part_of};
ghost use Rattle.program_texts.specs.Texts.{GotWhole, GotPrefix, GotLine};

use arrayvec::ArrayVec;
use itoa::Buffer;
use outside::{Failed, Sink, send_all};
use requests::name_parts;

/// A part of a line.
#[derive(Clone, Copy)]
pub(crate) enum LinePart<'a> {
    /// This text.
    Text(&'a str),
    /// A number, as decimal digits.
    Number(u64),
    /// A number, as decimal digits, with `-` before them where it is negative.
    Signed(i32),
    /// A check word, as four hexadecimal digits.
    Hexadecimal(u16),
    /// The name of a file.
    Name(&'a str),
    /// The name of a split's piece: this prefix, the last two digits of the piece's number, and `.mp3`.
    PieceName(&'a str, u32),
}

impl Default for LinePart<'_> {
    /// An empty text.
    fn default() -> Self {
        LinePart::Text("")
    }
}

/// The parts of a line, nine at most.
pub(crate) type LineParts<'a> = ArrayVec<LinePart<'a>, 9>;

/// A line of these parts.
pub(crate) fn line<'a>(parts: &[LinePart<'a>]) -> LineParts<'a>
    requires { length parts.now ≤ 9 }
    ensures { result.items ≡ parts.now }
{
    let mut line = LineParts::new();
    line.try_extend_from_slice(parts).unwrap();
    line
}

/// A line that is this text.
pub(crate) fn text_line(text: &str) -> LineParts<'_>
    ensures { map line_part_of result.items ≡ Text text.now ∷ [] }
{
    line(&[LinePart::Text(text)])
}

/// A line of a name and a text.
pub(crate) fn name_line<'a>(name: &'a str, text: &'a str) -> LineParts<'a>
    ensures { map line_part_of result.items ≡ Name name.now ∷ Text text.now ∷ [] }
{
    line(&[LinePart::Name(name), LinePart::Text(text)])
}

/// A line of a number between two texts.
pub(crate) fn number_line<'a>(text: &'a str, number: u64, end: &'a str) -> LineParts<'a>
    ensures { map line_part_of result.items ≡ Text text.now ∷ Number number ∷ Text end.now ∷ [] }
{
    line(&[
        LinePart::Text(text),
        LinePart::Number(number),
        LinePart::Text(end),
    ])
}

/// A line of a name, and a number between two texts.
pub(crate) fn named_line<'a>(
    name: &'a str,
    text: &'a str,
    number: u64,
    end: &'a str,
) -> LineParts<'a>
    ensures { map line_part_of result.items
        ≡ Name name.now ∷ Text text.now ∷ Number number ∷ Text end.now ∷ [] }
{
    line(&[
        LinePart::Name(name),
        LinePart::Text(text),
        LinePart::Number(number),
        LinePart::Text(end),
    ])
}

/// Sends the texts in order, and stops at the first write that fails.
pub(crate) fn send_text<T: Sink>(sink: &mut T, pieces: &[&str]) -> Result<(), Failed>
    ensures whole { OnOk result (GotWhole (T.heard sink.old).sent (T.heard sink.new).sent
        (T.heard sink.old).faults (T.heard sink.new).faults
        (flat_map (λ piece. piece.now) pieces.now)) }
    ensures front { OnErr result (GotPrefix (T.heard sink.old).sent (T.heard sink.new).sent
        (T.heard sink.old).faults (T.heard sink.new).faults
        (flat_map (λ piece. piece.now) pieces.now)) }
    ensures later { (T.heard sink.old).faults ≤ (T.heard sink.new).faults }
{
    for piece in pieces {
        send_all(sink, piece.as_bytes())?;
    }
    Ok(())
}

/// The digits of hexadecimal numbers.
static HEX_DIGITS: [&str; 16] = [
    "0", "1", "2", "3", "4", "5", "6", "7", "8", "9", "a", "b", "c", "d", "e", "f",
];

// The last hexadecimal digit of a number.
fn hex_digit<'a>(number: u16) -> &'a str
    ensures { result.now ≡ hex_digit (number % 16) ∷ [] }
{
    HEX_DIGITS[usize::from(number % 16)]
}

// A check word as four hexadecimal digits.
fn hex_digits<'a>(word: u16) -> [&'a str; 4]
    ensures { flat_map (λ digit. digit.now) result ≡ hex_word word }
{
    [
        hex_digit(word >> 12),
        hex_digit(word >> 8),
        hex_digit(word >> 4),
        hex_digit(word),
    ]
}

// Sends a part.
fn send_part<T: Sink>(sink: &mut T, part: &LinePart) -> Result<(), Failed>
    ensures whole { OnOk result (GotWhole (T.heard sink.old).sent (T.heard sink.new).sent
        (T.heard sink.old).faults (T.heard sink.new).faults (part_text (line_part_of part.now))) }
    ensures front { OnErr result (GotPrefix (T.heard sink.old).sent (T.heard sink.new).sent
        (T.heard sink.old).faults (T.heard sink.new).faults (part_text (line_part_of part.now))) }
    ensures later { (T.heard sink.old).faults ≤ (T.heard sink.new).faults }
{
    match *part {
        LinePart::Text(text) | LinePart::Name(text) => send_text(sink, &[text]),
        LinePart::Number(number) => send_text(sink, &[Buffer::new().format(number)]),
        LinePart::Signed(number) => send_text(sink, &[Buffer::new().format(number)]),
        LinePart::Hexadecimal(word) => send_text(sink, &hex_digits(word)),
        LinePart::PieceName(prefix, number) => {
            send_text(sink, &name_parts(prefix, (number % 100) as u8))
        }
    }
}

// Sends the parts in order, and stops at the first write that fails.
fn send_parts<T: Sink>(sink: &mut T, parts: &[LinePart]) -> Result<(), Failed>
    ensures whole { OnOk result (GotWhole (T.heard sink.old).sent (T.heard sink.new).sent
        (T.heard sink.old).faults (T.heard sink.new).faults
        (flat_map (λ part. part_text (line_part_of part)) parts.now)) }
    ensures front { OnErr result (GotPrefix (T.heard sink.old).sent (T.heard sink.new).sent
        (T.heard sink.old).faults (T.heard sink.new).faults
        (flat_map (λ part. part_text (line_part_of part)) parts.now)) }
    ensures later { (T.heard sink.old).faults ≤ (T.heard sink.new).faults }
{
    for part in parts {
        send_part(sink, part)?;
    }
    Ok(())
}

/// Sends the parts of a line. It stops at the first write that fails, and doesn't return that one did.
pub(crate) fn send_line<E: Sink>(err: &mut E, parts: &[LinePart])
    ensures { GotLine (E.heard err.old).sent (E.heard err.new).sent (E.heard err.old).faults
        (E.heard err.new).faults (text_of_line (map line_part_of parts.now)) }
{
    let _ = send_parts(err, parts);
}
