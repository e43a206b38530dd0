//! Positions in a stream.
ghost use Rattle.std.specs.Prelude.{◌≡◌, ◌<◌, ◌≤◌, ◌^◌, IfSome};
ghost use Rattle.cue_sheet.specs.declared.place.Place.TheVariants.{End};
ghost use Rattle.cue_sheet.specs.Places.{place_of, time_of, hundredths_of, frame_at, IsPlace};

use crate::digits::{position_of, read_number};
use frame_header::Class;

/// A position: a place between the frames of a stream. Frames are counted from 0, without a head.
#[derive(Clone, Copy, Debug, PartialEq, Eq)]
pub enum Place {
    /// Before the frame with this number.
    Frame(u32),
    /// A time after the first frame begins: a number of parts of a second, and how many parts a second
    /// has, from 1 to 100. The position is before the frame that is played at that time.
    Time(u32, u32),
    /// After the last frame.
    End,
}

impl Default for Place {
    ghost is_default = { λ place. place ≡ End };

    /// The end.
    fn default() -> Place {
        Place::End
    }
}

// The hundredths after the seconds: nothing, or a dot and one or two digits.
fn read_hundredths(tail: &[u8]) -> Option<u32>
    ensures hundredths { result ≡ hundredths_of tail.now }
    ensures most { IfSome result (λ hundredths. hundredths ≤ 99) }
{
    match tail {
        [] => Some(0),
        [_, digits @ ..] => read_number(digits, 1, 2, 99),
    }
}

// A time, from its minutes and what is after the first dot.
#[tactic(auto, unfolding(crate::specs::Places::time_of))]
fn read_time(minutes: &[u8], rest: &[u8]) -> Option<Place>
    ensures time { result ≡ time_of minutes.now rest.now }
    ensures place { IfSome result IsPlace }
{
    let end = position_of(rest, b'.');
    let minutes = read_number(minutes, 1, 4, 9_999)?;
    let seconds = read_number(&rest[..end], 1, 2, 59)?;
    let hundredths = read_hundredths(&rest[end..])?;
    Some(Place::Time((60 * minutes + seconds) * 100 + hundredths, 100))
}

#[tactic(auto, unfolding(crate::specs::Places::frame_at, crate::specs::Places::place_of))]
impl Place {
    /// The position that a word says, as mp3splt writes them: `EOF`, the end; one to seven digits, the
    /// number of a frame; or one to four digits, a dot, one or two digits of at most 59, and optionally a
    /// dot and one or two digits: minutes, seconds and hundredths of a second. A single last digit is
    /// hundredths too. `None` exactly for every other word.
    pub fn read(word: &str) -> Option<Place>
        ensures place { result ≡ place_of word.now }
        ensures sound { IfSome result IsPlace }
    {
        Place::of_word(word.as_bytes())
    }

    /// The same for a word of a sheet, whose bytes needn't be UTF-8.
    pub fn of_word(word: &[u8]) -> Option<Place>
        ensures place { result ≡ place_of word.now }
        ensures sound { IfSome result IsPlace }
    {
        if word == b"EOF".as_slice() {
            return Some(Place::End);
        }
        let end = position_of(word, b'.');
        if end == word.len() {
            return read_number(word, 1, 7, 9_999_999).map(Place::Frame);
        }
        read_time(&word[..end], &word[end + 1..])
    }

    /// The number of the frame that the position is before, in a stream of `frames` frames of this class:
    /// the number itself, the number of frames for the end, and for a time the number of whole frames that
    /// take no longer. It may be greater than the number of frames.
    pub fn frame_of(&self, class: Class, frames: u32) -> u64
        requires { IsPlace self.now }
        ensures frame { result ≡ frame_at class frames self.now }
        ensures most { result < 2 ^ 48 }
    {
        match *self {
            Place::Frame(number) => u64::from(number),
            Place::End => u64::from(frames),
            Place::Time(time, parts) => {
                u64::from(time) * u64::from(class.frequency())
                    / (u64::from(parts) * u64::from(class.samples()))
            }
        }
    }
}
