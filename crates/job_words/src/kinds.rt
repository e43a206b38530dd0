//! What a single word can be, and what it says.
ghost use Rattle.std.specs.Prelude.{◌≡◌, option_map};
ghost use Rattle.job_words.specs.Kinds.{is_name, channel_of, rate_in, seed_in, count_in, word_value, name_said, steps_said, channel_said, place_said, exact_said, rate_said, seed_said, count_said};
ghost use Rattle.job_words.specs.Code.{word_kind, value_said};

use cue_sheet::Place;
use cue_sheet::digits::{read_number, read_steps};
use exact_span::ExactPlace;
use requests::Channels;

/// What a word of a form is.
#[derive(Clone, Copy)]
pub(crate) enum WordKind {
    /// This word.
    Fixed(&'static str),
    /// The name of a file.
    Name,
    /// A number of steps.
    Steps,
    /// A channel.
    Channel,
    /// A position.
    Place,
    /// A place among the samples.
    Exact,
    /// A bit rate in kbit/s.
    Rate,
    /// The seed of a stream.
    Seed,
    /// The number of frames of that stream.
    Count,
}

impl Default for WordKind {
    /// A name.
    fn default() -> Self {
        WordKind::Name
    }
}

/// What a word says.
#[derive(Clone, Copy)]
pub(crate) enum Value<'a> {
    /// Nothing more than the word itself.
    Fixed,
    /// This name.
    Name(&'a str),
    /// A number of steps of 1.5 dB, -255 to 255.
    Steps(i16),
    /// This channel.
    Channel(Channels),
    /// This position.
    Place(Place),
    /// This place among the samples.
    Exact(ExactPlace),
    /// This bit rate in kbit/s, 0 to 999.
    Rate(u16),
    /// This seed, below 2^31.
    Seed(u32),
    /// A number of frames, 1 to 20,000.
    Count(u32),
}

impl Default for Value<'_> {
    /// Nothing.
    fn default() -> Self {
        Value::Fixed
    }
}

// A name isn't empty, and doesn't begin with `-`.
fn is_name(word: &str) -> bool
    ensures { result ≡ is_name word.now }
{
    !matches!(word.as_bytes(), [] | [b'-', ..])
}

// `0` is the left channel, `1` the right one.
fn read_channel(word: &str) -> Option<Channels>
    ensures { result ≡ channel_of word.now }
{
    match word {
        "0" => Some(Channels::Left),
        "1" => Some(Channels::Right),
        _ => None,
    }
}

// One to three digits.
fn read_rate(word: &str) -> Option<u16>
    ensures { result ≡ rate_in word.now }
{
    read_number(word.as_bytes(), 1, 3, 999).map(|rate| rate as u16)
}

// One to ten digits, of a number up to 2^31 - 1.
fn read_seed(word: &str) -> Option<u32>
    ensures { result ≡ seed_in word.now }
{
    read_number(word.as_bytes(), 1, 10, 2_147_483_647)
}

// One to five digits, of a number from 1 to 20,000.
fn read_count(word: &str) -> Option<u32>
    ensures { result ≡ count_in word.now }
{
    let count = read_number(word.as_bytes(), 1, 5, 20_000)?;
    if count == 0 { None } else { Some(count) }
}

impl WordKind {
    /// What a word of this kind says. `None` for a word that isn't of the kind.
    pub(crate) fn read<'a>(&self, word: &'a str) -> Option<Value<'a>>
        ensures { option_map value_said result ≡ word_value (word_kind self.now) word.now }
    {
        match self {
            WordKind::Fixed(text) if word == *text => Some(Value::Fixed),
            WordKind::Name if is_name(word) => Some(Value::Name(word)),
            WordKind::Steps => Some(Value::Steps(read_steps(word.as_bytes())?)),
            WordKind::Channel => Some(Value::Channel(read_channel(word)?)),
            WordKind::Place => Some(Value::Place(Place::read(word)?)),
            WordKind::Exact => Some(Value::Exact(ExactPlace::read(word)?)),
            WordKind::Rate => Some(Value::Rate(read_rate(word)?)),
            WordKind::Seed => Some(Value::Seed(read_seed(word)?)),
            WordKind::Count => Some(Value::Count(read_count(word)?)),
            _ => None,
        }
    }
}

impl<'a> Value<'a> {
    /// The name; an empty one for any other value.
    pub(crate) fn name(self) -> &'a str
        ensures { result.now ≡ name_said (value_said self.entry) }
    {
        match self {
            Value::Name(name) => name,
            _ => "",
        }
    }

    /// The number of steps; 0 for any other value.
    pub(crate) fn steps(self) -> i16
        ensures { result ≡ steps_said (value_said self.entry) }
    {
        match self {
            Value::Steps(steps) => steps,
            _ => 0,
        }
    }

    /// The channel; both for any other value.
    pub(crate) fn channels(self) -> Channels
        ensures { result ≡ channel_said (value_said self.entry) }
    {
        match self {
            Value::Channel(channel) => channel,
            _ => Channels::Both,
        }
    }

    /// The position; the end for any other value.
    pub(crate) fn place(self) -> Place
        ensures { result ≡ place_said (value_said self.entry) }
    {
        match self {
            Value::Place(place) => place,
            _ => Place::End,
        }
    }

    /// The place among the samples; the end for any other value.
    pub(crate) fn exact(self) -> ExactPlace
        ensures { result ≡ exact_said (value_said self.entry) }
    {
        match self {
            Value::Exact(place) => place,
            _ => ExactPlace::default(),
        }
    }

    /// The bit rate; 0 for any other value.
    pub(crate) fn rate(self) -> u16
        ensures { result ≡ rate_said (value_said self.entry) }
    {
        match self {
            Value::Rate(rate) => rate,
            _ => 0,
        }
    }

    /// The seed; 0 for any other value.
    pub(crate) fn seed(self) -> u32
        ensures { result ≡ seed_said (value_said self.entry) }
    {
        match self {
            Value::Seed(seed) => seed,
            _ => 0,
        }
    }

    /// The number of frames; 1 for any other value.
    pub(crate) fn count(self) -> u32
        ensures { result ≡ count_said (value_said self.entry) }
    {
        match self {
            Value::Count(count) => count,
            _ => 1,
        }
    }
}
