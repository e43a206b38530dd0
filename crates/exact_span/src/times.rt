//! Times in words, to a thousandth of a second.
ghost use Rattle.std.specs.Prelude.{◌≡◌, ◌≤◌, IfSome};
ghost use Rattle.exact_span.specs.Places.{clock_of, seconds_tail, thousandths_of, fraction_of, decimals_of, millis_of, fine_millis_of, decimal_millis_of, lone_seconds_of, instant_of, interval_of};

use cue_sheet::digits::read_number;
use cue_sheet::words::{text_after, text_before};

/// Minutes and seconds with a dot between them, in seconds.
#[tactic(auto, unfolding(crate::specs::Places::clock_of))]
fn read_clock(word: &[u8]) -> Option<u32>
    ensures clock { result ≡ clock_of word.now }
    ensures most { IfSome result (λ seconds. seconds ≤ 599999) }
{
    let minutes = read_number(text_before(word, b'.'), 1, 4, 9_999)?;
    let seconds = read_number(text_before(text_after(word, b'.'), b'.'), 1, 2, 59)?;
    Some(60 * minutes + seconds)
}

/// What is after the seconds: nothing, or the second dot and what follows it.
fn behind_seconds(word: &[u8]) -> &[u8]
    ensures { result.now ≡ seconds_tail word.now }
{
    let rest = text_after(word, b'.');
    &rest[text_before(rest, b'.').len()..]
}

/// A dot and three digits.
fn read_thousandths(tail: &[u8]) -> Option<u32>
    ensures thousandths { result ≡ thousandths_of tail.now }
    ensures most { IfSome result (λ thousandths. thousandths ≤ 999) }
{
    match tail {
        [] => None,
        [_, digits @ ..] => read_number(digits, 3, 3, 999),
    }
}

/// Nothing, or a dot and two or three digits: hundredths or thousandths, in thousandths.
fn read_fraction(tail: &[u8]) -> Option<u32>
    ensures fraction { result ≡ fraction_of tail.now }
    ensures most { IfSome result (λ thousandths. thousandths ≤ 999) }
{
    match tail {
        [] => Some(0),
        [_, digits @ ..] if digits.len() == 2 => Some(10 * read_number(digits, 2, 2, 99)?),
        [_, digits @ ..] => read_number(digits, 3, 3, 999),
    }
}

/// Nothing, or a dot and one to three digits: a decimal fraction, in thousandths.
fn read_decimals(tail: &[u8]) -> Option<u32>
    ensures decimals { result ≡ decimals_of tail.now }
    ensures most { IfSome result (λ thousandths. thousandths ≤ 999) }
{
    match tail {
        [_, digits @ ..] if digits.len() == 1 => Some(100 * read_number(digits, 1, 1, 9)?),
        _ => read_fraction(tail),
    }
}

/// Minutes, seconds and three digits, in thousandths of a second. `None` exactly for every other
/// word.
#[tactic(auto, unfolding(crate::specs::Places::millis_of))]
fn read_millis(word: &[u8]) -> Option<u32>
    ensures { result ≡ millis_of word.now }
{
    let seconds = read_clock(word)?;
    let thousandths = read_thousandths(behind_seconds(word))?;
    Some(seconds * 1_000 + thousandths)
}

/// Minutes, seconds and optionally two or three digits, in thousandths of a second. `None` exactly
/// for every other word.
#[tactic(auto, unfolding(crate::specs::Places::fine_millis_of))]
fn read_fine_millis(word: &[u8]) -> Option<u32>
    ensures { result ≡ fine_millis_of word.now }
{
    let seconds = read_clock(word)?;
    let thousandths = read_fraction(behind_seconds(word))?;
    Some(seconds * 1_000 + thousandths)
}

/// A decimal number of seconds, in thousandths. `None` exactly for every other text.
#[tactic(auto, unfolding(crate::specs::Places::decimal_millis_of))]
fn read_decimal_millis(number: &[u8]) -> Option<u32>
    ensures { result ≡ decimal_millis_of number.now }
{
    let whole = text_before(number, b'.');
    let seconds = read_number(whole, 1, 6, 999_999)?;
    let thousandths = read_decimals(&number[whole.len()..])?;
    Some(seconds * 1_000 + thousandths)
}

/// Such a number and `s`, in thousandths of a second. `None` exactly for every other word.
#[tactic(auto, unfolding(crate::specs::Places::lone_seconds_of))]
fn read_lone_seconds(word: &[u8]) -> Option<u32>
    ensures { result ≡ lone_seconds_of word.now }
{
    match word {
        [number @ .., b's'] => read_decimal_millis(number),
        _ => None,
    }
}

/// A time after the first sample, in thousandths of a second: minutes, seconds and three digits, or
/// seconds alone. `None` exactly for every other word.
#[tactic(auto, unfolding(crate::specs::Places::instant_of))]
pub(crate) fn read_instant(word: &[u8]) -> Option<u32>
    ensures { result ≡ instant_of word.now }
{
    if let Some(time) = read_millis(word) {
        return Some(time);
    }
    read_lone_seconds(word)
}

/// How long before the end, in thousandths of a second: minutes, seconds and optionally two or three
/// digits, or seconds alone. `None` exactly for every other word.
#[tactic(auto, unfolding(crate::specs::Places::interval_of))]
pub(crate) fn read_interval(word: &[u8]) -> Option<u32>
    ensures { result ≡ interval_of word.now }
{
    if let Some(time) = read_fine_millis(word) {
        return Some(time);
    }
    read_lone_seconds(word)
}
