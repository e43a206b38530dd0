//! The flags of a form: words before its other words that may be left out, each at most once and in any order.
ghost use Rattle.std.specs.Prelude.{◌≡◌, ◌≤◌, length, map, drop, string_bytes, find};
ghost use Rattle.job_words.specs.Flags.{flag_words, begins_flag, is_given, without_flag, next_flag, leading_flags};

use arrayvec::ArrayVec;

/// A flag of a form.
#[derive(Clone, Copy)]
pub(crate) enum Flag {
    /// `-s s`: tags are neither read nor changed.
    Tagless,
    /// `-w`: gains wrap around modulo 256.
    Wrapping,
    /// `--least`: each frame gets the lowest bit rate and padding with which all main data still have room.
    Least,
    /// `--back`: a fade is undone.
    Back,
    /// `--seamless`: frames that only a piece needs are left out.
    Seamless,
}

impl Default for Flag {
    /// The first flag.
    fn default() -> Self {
        Flag::Tagless
    }
}

/// The most flags that a form has.
const MOST_FLAGS: usize = 4;

/// Flags of a form.
pub(crate) type Flags = ArrayVec<Flag, MOST_FLAGS>;

impl Flag {
    /// The flag's words, one or two.
    pub(crate) fn words(self) -> &'static [&'static str]
        ensures words { map (λ word. word.now) result.now ≡ flag_words self }
        ensures some { 1 ≤ length result.now }
        ensures few { length result.now ≤ 2 }
    {
        match self {
            Flag::Tagless => &["-s", "s"],
            Flag::Wrapping => &["-w"],
            Flag::Least => &["--least"],
            Flag::Back => &["--back"],
            Flag::Seamless => &["--seamless"],
        }
    }

    // Whether the word is the first word of the flag.
    fn begins(self, word: &str) -> bool
        ensures { result ≡ begins_flag word.now self }
    {
        self.words()[0] == word
    }
}

/// Whether the flag is among those that are given.
pub(crate) fn is_given(given: &[Flag], flag: Flag) -> bool
    ensures { result ≡ is_given given.now flag }
{
    for other in given {
        if other.begins(flag.words()[0]) {
            return true;
        }
    }
    false
}

// The flags other than this one.
fn without_flag(flags: &[Flag], flag: Flag) -> Flags
    requires { length flags.now ≤ 4 }
    ensures { result.items ≡ without_flag flag flags.now }
{
    let mut others = Flags::new();
    for other in flags {
        if !other.begins(flag.words()[0]) {
            others.push(*other);
        }
    }
    others
}

// The flag whose first word this is.
fn flag_with(flags: &[Flag], word: &str) -> Option<Flag>
    ensures { result ≡ find (begins_flag word.now) flags.now }
{
    for flag in flags {
        if flag.begins(word) {
            return Some(*flag);
        }
    }
    None
}

// The flag whose first word is the first of these.
fn next_flag(flags: &[Flag], words: &[String]) -> Option<Flag>
    ensures { result ≡ next_flag flags.now (map string_bytes words.now) }
{
    match words {
        [] => None,
        [word, ..] => flag_with(flags, word.as_str()),
    }
}

/// The values of a list after the first `count`.
pub(crate) fn skip<T>(items: &[T], count: usize) -> &[T]
    ensures { result.now ≡ drop count items.now }
{
    &items[count.min(items.len())..]
}

/// The flags with which the words after the first begin, each at most once.
pub(crate) fn leading_flags(flags: &[Flag], words: &[String]) -> Flags
    requires { length flags.now ≤ 4 }
    ensures given { result.items ≡ leading_flags flags.now (drop 1 (map string_bytes words.now)) }
    ensures few { length result.items ≤ 4 }
{
    let mut given = Flags::new();
    let mut left = Flags::new();
    left.try_extend_from_slice(flags).unwrap();
    let mut rest = skip(words, 1);
    for _ in 0..flags.len() {
        let Some(flag) = next_flag(left.as_slice(), rest) else {
            break;
        };
        given.push(flag);
        left = without_flag(left.as_slice(), flag);
        rest = skip(rest, flag.words().len());
    }
    given
}
