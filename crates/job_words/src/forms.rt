//! The forms that the program's words have.
ghost use Rattle.std.specs.Prelude.{◌≡◌, ◌≤◌, ◌+◌, ◌++◌, length, map, replicate, string_bytes, IfErr};
ghost use Rattle.job_words.specs.Kinds.{said_at, name_at, place_said, exact_said, values_of};
ghost use Rattle.job_words.specs.Flags.{flag_kinds};
ghost use Rattle.job_words.specs.Forms.{shapes_of, last_kind, further_words, most_further, form_kinds, front_kinds, pairs_of, gain_request, pack_request, sheet_request, form_request, most_values, IsReadable};
ghost use Rattle.job_words.specs.Words.{table_reading};
ghost use Rattle.job_words.specs.Code.{word_kind, value_said, form_given};
ghost use Rattle.job_words.specs.Request.{job_request, request_result};

use crate::flags::{Flag, is_given, leading_flags, skip};
use crate::jobs::Job;
use crate::kinds::{Value, WordKind};
use arrayvec::ArrayVec;
use cue_sheet::Place;
use exact_span::ExactPlace;
use requests::{Channels, PackMode, Shift};

/// What the words of a form ask for.
#[derive(Clone, Copy)]
pub(crate) enum FormKind {
    Help,
    Version,
    List,
    Info,
    Gain,
    ChannelGain,
    Undo,
    Cut,
    CutExact,
    Pack,
    ConstantPack,
    FloorPack,
    BestPack,
    SplitAt,
    SplitExact,
    SplitBy,
    SplitExactBy,
    Join,
    Drill,
    Fade,
    Salvage,
    Remove,
}

/// How many further words of its last kind a form may have.
#[derive(Clone, Copy)]
pub(crate) enum More {
    /// Up to so many words.
    Words(usize),
    /// Up to so many pairs of words.
    Pairs(usize),
}

/// A form: the command's word, then flags, then words of these kinds, and further words of the last kind.
pub(crate) struct Form {
    pub(crate) command: &'static str,
    pub(crate) flags: &'static [Flag],
    pub(crate) kinds: &'static [WordKind],
    pub(crate) more: More,
    pub(crate) asks: FormKind,
}

/// What a form asks for, the command's word, flags, the kinds of the other words, and how many more words of the last kind, or
/// pairs of them, there may be.
macro_rules! form {
    ($asks:ident: $command:literal [$($flag:ident)*] [$($kind:ident $(($word:literal))?)*] $more:literal) => {
        form!($asks: $command [$($flag)*] [$($kind $(($word))?)*] Words $more)
    };
    ($asks:ident: $command:literal [$($flag:ident)*] [$($kind:ident $(($word:literal))?)*] $more:ident $most:literal) => {
        Form {
            command: $command,
            flags: &[$(Flag::$flag),*],
            kinds: &[$(WordKind::$kind $(($word))?),*],
            more: More::$more($most),
            asks: FormKind::$asks,
        }
    };
}

/// A field of a job: whether a flag is given, or what the words after the flags say from this place on, counted from 0.
macro_rules! field {
    ($given:ident $values:ident flag $flag:ident) => {
        is_given($given, Flag::$flag)
    };
    ($given:ident $values:ident name $place:literal) => {
        name_at($values, $place)
    };
    ($given:ident $values:ident places $place:literal) => {
        places_of(skip($values, $place))
    };
    ($given:ident $values:ident exact_places $place:literal) => {
        exact_places_of(skip($values, $place))
    };
    ($given:ident $values:ident stretches $place:literal) => {
        stretches_of(skip($values, $place))
    };
    ($given:ident $values:ident $says:ident $place:literal) => {
        value_at($values, $place).$says()
    };
}

/// A job with these fields.
macro_rules! job {
    ($job:ident($given:ident, $values:ident) $($field:ident: $says:ident $from:tt),*) => {
        Job::$job { $($field: field!($given $values $says $from)),* }
    };
}

/// The forms. C is a channel, N a number of steps, B a bit rate, SEED and COUNT are numbers; P1 to P100, FROM and TO are positions,
/// or after `--exact` and in `remove` places among the samples; all others are names.
pub(crate) static FORMS: [Form; 23] = [
    // `--help`
    form!(Help: "--help" [] [] 0),
    // `-h`
    form!(Help: "-h" [] [] 0),
    // `--version`
    form!(Version: "--version" [] [] 0),
    // `list IN`
    form!(List: "list" [] [Name] 0),
    // `info IN`
    form!(Info: "info" [] [Name] 0),
    // `gain [-s s] [-w] -g N IN OUT`
    form!(Gain: "gain" [Tagless Wrapping] [Fixed("-g") Steps Name Name] 0),
    // `gain [-s s] [-w] -l C N IN OUT`
    form!(ChannelGain: "gain" [Tagless Wrapping] [Fixed("-l") Channel Steps Name Name] 0),
    // `gain -u IN OUT`
    form!(Undo: "gain" [] [Fixed("-u") Name Name] 0),
    // `cut [--least] IN FROM TO OUT`
    form!(Cut: "cut" [Least] [Name Place Place Name] 0),
    // `cut --exact IN FROM TO OUT`
    form!(CutExact: "cut" [] [Fixed("--exact") Name Exact Exact Name] 0),
    // `pack IN OUT`
    form!(Pack: "pack" [] [Name Name] 0),
    // `pack --constant B IN OUT`
    form!(ConstantPack: "pack" [] [Fixed("--constant") Rate Name Name] 0),
    // `pack --floor B IN OUT`
    form!(FloorPack: "pack" [] [Fixed("--floor") Rate Name Name] 0),
    // `pack --best IN OUT`
    form!(BestPack: "pack" [] [Fixed("--best") Name Name] 0),
    // `split IN PREFIX P1 P2 [P3 to P100]`
    form!(SplitAt: "split" [] [Name Name Place Place] 98),
    // `split --exact IN PREFIX P1 P2 [P3 to P100]`
    form!(SplitExact: "split" [] [Fixed("--exact") Name Name Exact Exact] 98),
    // `split IN PREFIX -c CUE`
    form!(SplitBy: "split" [] [Name Name Fixed("-c") Name] 0),
    // `split --exact IN PREFIX -c CUE`
    form!(SplitExactBy: "split" [] [Fixed("--exact") Name Name Fixed("-c") Name] 0),
    // `join [--seamless] OUT IN1 [IN2 to IN64]`
    form!(Join: "join" [Seamless] [Name Name] 63),
    // `drill SEED COUNT`
    form!(Drill: "drill" [] [Seed Count] 0),
    // `fade [--back] IN OUT SHEET`
    form!(Fade: "fade" [Back] [Name Name Name] 0),
    // `salvage IN OUT`
    form!(Salvage: "salvage" [] [Name Name] 0),
    // `remove IN OUT FROM TO [FROM TO ..]`, with up to 50 pairs
    form!(Remove: "remove" [] [Name Name Exact Exact] Pairs 49),
];

/// The most kinds that a form has for its words: the command's, four
/// flags of two words each, five kinds, and the last kind 98 times more.
pub(crate) const MOST_KINDS: usize = 112;

/// The kinds of a form's words.
pub(crate) type Kinds = ArrayVec<WordKind, MOST_KINDS>;

// The positions that the values are.
fn places_of(values: &[Value]) -> ArrayVec<Place, 100>
    requires { length values.now ≤ 100 }
    ensures { result.items ≡ map place_said (map value_said values.now) }
{
    let mut places = ArrayVec::new();
    for value in values {
        places.push(value.place());
    }
    places
}

// The places among the samples that the values are.
fn exact_places_of(values: &[Value]) -> ArrayVec<ExactPlace, 100>
    requires { length values.now ≤ 100 }
    ensures { result.items ≡ map exact_said (map value_said values.now) }
{
    let mut places = ArrayVec::new();
    for value in values {
        places.push(value.exact());
    }
    places
}

// The stretches that the values are, two places for each.
fn stretches_of(values: &[Value]) -> ArrayVec<(ExactPlace, ExactPlace), 50>
    requires { length values.now ≤ 100 }
    ensures { result.items ≡ pairs_of (map exact_said (map value_said values.now)) }
{
    let mut stretches = ArrayVec::new();
    for pair in values.chunks_exact(2) {
        stretches.push((pair[0].exact(), pair[1].exact()));
    }
    stretches
}

// The value at a place of the list, counted from 0; `Fixed` where there is none.
fn value_at<'a>(values: &[Value<'a>], place: usize) -> Value<'a>
    ensures { value_said result ≡ said_at (map value_said values.now) place }
{
    match values.get(place) {
        Some(value) => *value,
        None => Value::Fixed,
    }
}

// The name at a place, counted from 0.
fn name_at<'a>(values: &[Value<'a>], place: usize) -> &'a str
    ensures { result.now ≡ name_at (map value_said values.now) place }
{
    value_at(values, place).name()
}

// A change of gains of these channels: the values from this place on, counted from 0, are its steps, its input and its output.
fn gain<'a>(channels: Channels, given: &[Flag], values: &[Value<'a>], place: usize) -> Job<'a>
    requires { place ≤ 2 }
    ensures { job_request result
        ≡ gain_request channels given.now (map value_said values.now) place }
{
    Job::Gain {
        shift: Shift {
            channels,
            steps: value_at(values, place).steps(),
            wrap: is_given(given, Flag::Wrapping),
        },
        tags: !is_given(given, Flag::Tagless),
        input: name_at(values, place + 1),
        output: name_at(values, place + 2),
    }
}

// A packing in this mode: the values from this place on, counted from 0, are its input and its output.
fn pack<'a>(mode: PackMode, values: &[Value<'a>], place: usize) -> Job<'a>
    requires { place ≤ 2 }
    ensures { job_request result ≡ pack_request mode (map value_said values.now) place }
{
    Job::Pack {
        mode,
        input: name_at(values, place),
        output: name_at(values, place + 1),
    }
}

// A split by a cue sheet: the values from this place on, counted from 0, are its input, its prefix, a fixed word and the sheet.
fn split_by<'a>(exact: bool, values: &[Value<'a>], place: usize) -> Job<'a>
    requires { place ≤ 2 }
    ensures { job_request result ≡ sheet_request exact (map value_said values.now) place }
{
    Job::SplitBy {
        exact,
        input: name_at(values, place),
        prefix: name_at(values, place + 1),
        sheet: name_at(values, place + 3),
    }
}

impl FormKind {
    /// What is asked for by these flags, by what the words after them say, and by these words themselves.
    pub(crate) fn job<'a>(
        self,
        given: &[Flag],
        values: &[Value<'a>],
        words: &'a [String],
    ) -> Job<'a>
        requires { length values.now ≤ most_values self }
        ensures { job_request result ≡ form_request self given.now (map value_said values.now)
            (map string_bytes words.now) }
    {
        match self {
            FormKind::Help => Job::Help,
            FormKind::Version => Job::Version,
            FormKind::List => job!(List(given, values) input: name 0),
            FormKind::Info => job!(Info(given, values) input: name 0),
            FormKind::Gain => gain(Channels::Both, given, values, 1),
            FormKind::ChannelGain => gain(value_at(values, 1).channels(), given, values, 2),
            FormKind::Undo => job!(Undo(given, values) input: name 1, output: name 2),
            FormKind::Cut => job!(Cut(given, values) from: place 1, to: place 2, least: flag Least,
                input: name 0, output: name 3),
            FormKind::CutExact =>
                job!(CutExact(given, values) input: name 1, from: exact 2, to: exact 3,
                output: name 4),
            FormKind::Pack => pack(PackMode::Least, values, 0),
            FormKind::ConstantPack => pack(
                PackMode::Constant(value_at(values, 1).rate()),
                values,
                2,
            ),
            FormKind::FloorPack => pack(PackMode::Floor(value_at(values, 1).rate()), values, 2),
            FormKind::BestPack => pack(PackMode::Best, values, 1),
            FormKind::SplitAt =>
                job!(SplitAt(given, values) input: name 0, prefix: name 1, places: places 2),
            FormKind::SplitExact =>
                job!(SplitExact(given, values) input: name 1, prefix: name 2, places: exact_places 3),
            FormKind::SplitBy => split_by(false, values, 0),
            FormKind::SplitExactBy => split_by(true, values, 1),
            FormKind::Join => Job::Join {
                seamless: is_given(given, Flag::Seamless),
                output: name_at(values, 0),
                inputs: skip(words, 1),
            },
            FormKind::Drill => job!(Drill(given, values) seed: seed 0, count: count 1),
            FormKind::Fade =>
                job!(Fade(given, values) back: flag Back, input: name 0, output: name 1,
                sheet: name 2),
            FormKind::Salvage => job!(Salvage(given, values) input: name 0, output: name 1),
            FormKind::Remove =>
                job!(Remove(given, values) input: name 0, output: name 1, stretches: stretches 2),
        }
    }
}

// Appends these kinds.
fn append(kinds: &mut Kinds, more: &[WordKind])
    requires { length kinds.old.items + length more.now ≤ 112 }
    ensures items { kinds.new.items ≡ kinds.old.items ++ more.now }
    ensures count { length kinds.new.items ≡ length kinds.old.items + length more.now }
{
    kinds.try_extend_from_slice(more).unwrap();
}

// The last of some kinds; a name where there is none.
fn last_of(kinds: &[WordKind]) -> WordKind
    ensures { word_kind result ≡ last_kind (map word_kind kinds.now) }
{
    match kinds.last() {
        Some(kind) => *kind,
        None => WordKind::Name,
    }
}

// Appends this kind `count` times.
fn repeat(kinds: &mut Kinds, kind: WordKind, count: usize)
    requires { length kinds.old.items + count ≤ 112 }
    ensures { kinds.new.items ≡ kinds.old.items ++ replicate count kind }
{
    for _ in 0..count {
        kinds.push(kind);
    }
}

// Appends the words of a flag.
fn append_flag(kinds: &mut Kinds, flag: Flag)
    requires { length kinds.old.items ≤ 110 }
    ensures items { map word_kind kinds.new.items ≡
        map word_kind kinds.old.items ++ flag_kinds flag }
    ensures count { length kinds.new.items ≤ length kinds.old.items + 2 }
{
    for word in flag.words() {
        kinds.push(WordKind::Fixed(word));
    }
}

// The kinds of the command's word and of the flags' words.
fn front_kinds(command: &'static str, given: &[Flag]) -> Kinds
    requires { length given.now ≤ 4 }
    ensures items { map word_kind result.items ≡ front_kinds command.now given.now }
    ensures few { length result.items ≤ 9 }
{
    let mut kinds = Kinds::new();
    kinds.push(WordKind::Fixed(command));
    for flag in given {
        append_flag(&mut kinds, *flag);
    }
    kinds
}

impl More {
    // How many further words there are where `left` words are left for them: as many, with
    // the second word of a pair that is begun, but at most those that there may be.
    fn count_for(self, left: usize) -> usize
        requires { most_further self ≤ 98 }
        ensures { result ≡ further_words self left }
    {
        match self {
            More::Words(most) => left.min(most),
            More::Pairs(most) => 2 * left.div_ceil(2).min(most),
        }
    }
}

impl Form {
    // Appends the kinds of `count` words after the flags.
    fn append_behind(&self, kinds: &mut Kinds, count: usize)
        requires front { length kinds.old.items ≤ 9 }
        requires readable { IsReadable (form_given self.now) }
        ensures { map word_kind kinds.new.items ≡ map word_kind kinds.old.items
            ++ form_kinds (form_given self.now) count }
    {
        let more = self.more.count_for(count.saturating_sub(self.kinds.len()));
        append(kinds, self.kinds);
        repeat(kinds, last_of(self.kinds), more);
    }

    /// What the words ask for by this form, or the place of the first word, counted from 1, that it doesn't take.
    pub(crate) fn read<'a>(&self, words: &'a [String]) -> Result<Job<'a>, usize>
        requires { IsReadable (form_given self.now) }
        ensures answer { request_result result ≡ table_reading (shapes_of (form_given self.now))
            (map string_bytes words.now) }
        ensures few { IfErr result (λ place. place ≤ 113) }
    {
        let flags = leading_flags(self.flags, words);
        let given = flags.as_slice();
        let mut kinds = front_kinds(self.command, given);
        let front = kinds.len();
        self.append_behind(&mut kinds, words.len().saturating_sub(front));
        let read = read_while_fits(words, kinds.as_slice());
        let values = read.as_slice();
        let count = values.len();
        if count < words.len() || count < kinds.len() {
            return Err(count + 1);
        }
        Ok(
            self.asks
                .job(given, skip(values, front), skip(words, front)),
        )
    }
}

// What the first words say, up to the first that isn't of its kind.
fn read_while_fits<'a>(words: &'a [String], kinds: &[WordKind]) -> ArrayVec<Value<'a>, MOST_KINDS>
    requires { length kinds.now ≤ 112 }
    ensures { map value_said result.items ≡ values_of (map word_kind kinds.now)
        (map string_bytes words.now) }
{
    let mut values = ArrayVec::new();
    while values.len() < kinds.len() && values.len() < words.len() {
        let place = values.len();
        let Some(value) = kinds[place].read(words[place].as_str()) else {
            break;
        };
        values.push(value);
    }
    values
}
