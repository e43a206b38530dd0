//! Places of samples.
ghost use Rattle.std.specs.Prelude.{◌≡◌, ◌≤◌, ◌*◌, ◌<◌, IfSome};
ghost use Rattle.cue_sheet.specs.declared.place.Place.TheVariants.{End};
ghost use Rattle.cue_sheet.specs.Places.{IsPlace};
ghost use Rattle.exact_span.specs.declared.exact_place.ExactPlace.TheVariants.{Place as PlaceVariant};
ghost use Rattle.exact_span.specs.Places.{sample_of, back_of, exact_place_of, IsExactPlace, samples_until, sample_of_position, sample_at, frames_until, exact_frame_at};

use crate::times::{read_instant, read_interval};
use cue_sheet::Place;
use cue_sheet::digits::read_number;
use frame_header::Class;

/// A place among the samples of a file, exact to the sample.
#[derive(Clone, Copy, Debug, PartialEq, Eq)]
pub enum ExactPlace {
    /// A position: the number of a frame is the time of that many frames.
    Place(Place),
    /// Before the sample with this number, counted from 0.
    Sample(u32),
    /// This many thousandths of a second after the first sample.
    Millis(u32),
    /// This many thousandths of a second before the end.
    Back(u32),
}

impl Default for ExactPlace {
    ghost is_default = { λ place. place ≡ PlaceVariant End };

    /// The end.
    fn default() -> ExactPlace {
        ExactPlace::Place(Place::End)
    }
}

/// One to ten digits, and then `samples`.
#[tactic(auto, unfolding(crate::specs::Places::sample_of))]
fn read_sample(word: &[u8]) -> Option<u32>
    ensures { result ≡ sample_of word.now }
{
    let digits = word.strip_suffix(b"samples")?;
    read_number(digits, 1, 10, u32::MAX)
}

/// `EOF-` and a time.
#[tactic(auto, unfolding(crate::specs::Places::back_of))]
fn read_back(word: &[u8]) -> Option<u32>
    ensures { result ≡ back_of word.now }
{
    match word {
        [b'E', b'O', b'F', b'-', time @ ..] => read_interval(time),
        _ => None,
    }
}

/// How many whole samples take no longer than `time` parts of a second.
fn samples_until(class: Class, time: u32, parts: u32) -> u64
    requires { 1 ≤ parts }
    ensures { result ≡ samples_until class time parts }
{
    u64::from(time) * u64::from(class.frequency()) / u64::from(parts)
}

/// The sample that a position is before, in a file that plays `length` samples.
fn sample_of_position(class: Class, length: u64, place: Place) -> u64
    requires { IsPlace place }
    ensures { result ≡ sample_of_position class length place }
{
    match place {
        Place::Frame(number) => u64::from(number) * u64::from(class.samples()),
        Place::Time(time, parts) => samples_until(class, time, parts),
        Place::End => length,
    }
}

/// How many whole frames take no longer than `time` thousandths of a second.
fn frames_until(class: Class, time: u32) -> u64
    ensures { result ≡ frames_until class time }
{
    u64::from(time) * u64::from(class.frequency()) / (1_000 * u64::from(class.samples()))
}

#[tactic(auto, unfolding(crate::specs::Places::exact_place_of, crate::specs::Places::sample_at, crate::specs::Places::exact_frame_at))]
impl ExactPlace {
    /// The place that a word says:
    ///
    /// - a position, as `Place::read` reads it;
    /// - one to ten digits of a number up to 4,294,967,295, and `samples`: a sample;
    /// - minutes of one to four digits, a dot, seconds of one or two digits up to 59, a dot and
    ///   three digits: a time to a thousandth of a second;
    /// - one to six digits, optionally a dot and one to three digits, and `s`: a decimal number of
    ///   seconds;
    /// - `EOF-`, and minutes and seconds in the same form with optionally a dot and two or three
    ///   digits, hundredths or thousandths of a second, or seconds alone: so long before the end.
    ///
    /// `None` exactly for every other word.
    pub fn read(word: &str) -> Option<ExactPlace>
        ensures place { result ≡ exact_place_of word.now }
        ensures sound { IfSome result IsExactPlace }
    {
        let word = word.as_bytes();
        if let Some(place) = Place::of_word(word) {
            return Some(ExactPlace::Place(place));
        }
        if let Some(number) = read_sample(word) {
            return Some(ExactPlace::Sample(number));
        }
        if let Some(time) = read_instant(word) {
            return Some(ExactPlace::Millis(time));
        }
        read_back(word).map(ExactPlace::Back)
    }

    /// The sample of a file that it names, where the file plays `length` samples: for a time, the
    /// number of whole samples that take no longer; for a time before the end, as many samples
    /// before the end, or the first sample where there aren't as many. It may be greater than
    /// `length`.
    pub fn sample(&self, class: Class, length: u64) -> u64
        requires { IsExactPlace self.now }
        ensures { result ≡ sample_at class length self.now }
    {
        match *self {
            ExactPlace::Place(place) => sample_of_position(class, length, place),
            ExactPlace::Sample(number) => u64::from(number),
            ExactPlace::Millis(time) => samples_until(class, time, 1_000),
            ExactPlace::Back(time) => length.saturating_sub(samples_until(class, time, 1_000)),
        }
    }

    /// The number of the frame that it names in a file of `frames` frames, counted from the first
    /// frame after the head: for a position, the frame that `Place::frame_of` gives; for a sample,
    /// the frame in which it is; for a time, the number of whole frames that take no longer; for a
    /// time before the end, as many frames before the end, or the first frame where there aren't as
    /// many. Samples and times are counted from the beginning of that first frame, and not from the
    /// first sample that is played. It may be greater than `frames`.
    pub fn frame_of(&self, class: Class, frames: u32) -> u64
        requires { IsExactPlace self.now }
        ensures { result ≡ exact_frame_at class frames self.now }
    {
        match *self {
            ExactPlace::Place(place) => place.frame_of(class, frames),
            ExactPlace::Sample(number) => u64::from(number) / u64::from(class.samples()),
            ExactPlace::Millis(time) => frames_until(class, time),
            ExactPlace::Back(time) => u64::from(frames).saturating_sub(frames_until(class, time)),
        }
    }
}
