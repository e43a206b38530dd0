//! Words that have a form, and what they ask for.

use crate::tests::reading::{join_words, owned, remove_words, split_words};
use arrayvec::ArrayVec;
use cue_sheet::Place;
use exact_span::ExactPlace;
use job_words::keeps;
use mp3_cli::{Job, job};
use std::test::Fail;
use test_files::table;

pub static ROWS: &str = "
# Steps.
gain -s s -g 3 a ./-b => Gain { shift: Shift { channels: Both, steps: 3, wrap: false }, tags: false, input: \"a\", output: \"./-b\" }
gain -s s -g +007 a ./-b => Gain { shift: Shift { channels: Both, steps: 7, wrap: false }, tags: false, input: \"a\", output: \"./-b\" }
gain -s s -g -0 a ./-b => Gain { shift: Shift { channels: Both, steps: 0, wrap: false }, tags: false, input: \"a\", output: \"./-b\" }
gain -s s -g 255 a ./-b => Gain { shift: Shift { channels: Both, steps: 255, wrap: false }, tags: false, input: \"a\", output: \"./-b\" }
gain -s s -g -255 a ./-b => Gain { shift: Shift { channels: Both, steps: -255, wrap: false }, tags: false, input: \"a\", output: \"./-b\" }
gain -s s -g -12 a ./-b => Gain { shift: Shift { channels: Both, steps: -12, wrap: false }, tags: false, input: \"a\", output: \"./-b\" }

# Gains and undo.
gain -g -7 a b => Gain { shift: Shift { channels: Both, steps: -7, wrap: false }, tags: true, input: \"a\", output: \"b\" }
gain -s s -g -7 a b => Gain { shift: Shift { channels: Both, steps: -7, wrap: false }, tags: false, input: \"a\", output: \"b\" }
gain -w -g -7 a b => Gain { shift: Shift { channels: Both, steps: -7, wrap: true }, tags: true, input: \"a\", output: \"b\" }
gain -s s -w -g -7 a b => Gain { shift: Shift { channels: Both, steps: -7, wrap: true }, tags: false, input: \"a\", output: \"b\" }
gain -w -s s -g -7 a b => Gain { shift: Shift { channels: Both, steps: -7, wrap: true }, tags: false, input: \"a\", output: \"b\" }
gain -l 0 -7 a b => Gain { shift: Shift { channels: Left, steps: -7, wrap: false }, tags: true, input: \"a\", output: \"b\" }
gain -s s -l 0 -7 a b => Gain { shift: Shift { channels: Left, steps: -7, wrap: false }, tags: false, input: \"a\", output: \"b\" }
gain -w -l 0 -7 a b => Gain { shift: Shift { channels: Left, steps: -7, wrap: true }, tags: true, input: \"a\", output: \"b\" }
gain -s s -w -l 1 -7 a b => Gain { shift: Shift { channels: Right, steps: -7, wrap: true }, tags: false, input: \"a\", output: \"b\" }
gain -w -s s -l 1 -7 a b => Gain { shift: Shift { channels: Right, steps: -7, wrap: true }, tags: false, input: \"a\", output: \"b\" }
gain -u a b => Undo { input: \"a\", output: \"b\" }

# Files to list and pack. Any number of one to three digits is a word for a bit rate.
list a => List { input: \"a\" }
info a => Info { input: \"a\" }
pack a b => Pack { mode: Least, input: \"a\", output: \"b\" }
pack --constant 96 a b => Pack { mode: Constant(96), input: \"a\", output: \"b\" }
pack --constant 0 a b => Pack { mode: Constant(0), input: \"a\", output: \"b\" }
pack --floor 008 a b => Pack { mode: Floor(8), input: \"a\", output: \"b\" }
pack --floor 999 a b => Pack { mode: Floor(999), input: \"a\", output: \"b\" }
pack --best a b => Pack { mode: Best, input: \"a\", output: \"b\" }

# Drills.
drill 2147483647 20000 => Drill { seed: 2147483647, count: 20000 }
drill 0000000000 00001 => Drill { seed: 0, count: 1 }

# Fades.
fade a b s => Fade { back: false, input: \"a\", output: \"b\", sheet: \"s\" }
fade --back a b s => Fade { back: true, input: \"a\", output: \"b\", sheet: \"s\" }

# Words alone.
--help => Help
-h => Help
--version => Version

# Exact cuts, with every kind of place among the samples.
cut --exact a 1 EOF b => CutExact { input: \"a\", from: Place(Frame(1)), to: Place(End), output: \"b\" }
cut --exact a 0.0.05 1.02.5 b => CutExact { input: \"a\", from: Place(Time(5, 100)), to: Place(Time(6205, 100)), output: \"b\" }
cut --exact a 0samples 4294967295samples b => CutExact { input: \"a\", from: Sample(0), to: Sample(4294967295), output: \"b\" }
cut --exact a 0.0.005 9999.59.999 b => CutExact { input: \"a\", from: Millis(5), to: Millis(599999999), output: \"b\" }
cut --exact a EOF-1.2.34 EOF-0.0 b => CutExact { input: \"a\", from: Back(62340), to: Back(0), output: \"b\" }
cut --exact a 0.5s 999999.999s b => CutExact { input: \"a\", from: Millis(500), to: Millis(999999999), output: \"b\" }
cut --exact a EOF-90.25s EOF-0s b => CutExact { input: \"a\", from: Back(90250), to: Back(0), output: \"b\" }
cut --exact ./--exact EOF-0.1.005 EOF b => CutExact { input: \"./--exact\", from: Back(1005), to: Place(End), output: \"b\" }

# Cuts and splits.
cut a 1 EOF b => Cut { from: Frame(1), to: End, least: false, input: \"a\", output: \"b\" }
cut --least a 0.0 1.02.5 b => Cut { from: Time(0, 100), to: Time(6205, 100), least: true, input: \"a\", output: \"b\" }
split a p -c s => SplitBy { exact: false, input: \"a\", prefix: \"p\", sheet: \"s\" }
split --exact a p -c s => SplitBy { exact: true, input: \"a\", prefix: \"p\", sheet: \"s\" }
split --exact a p 0samples 0.1 EOF-0.0.005 => SplitExact { input: \"a\", prefix: \"p\", places: [Sample(0), Place(Time(100, 100)), Back(5)] }
split a p 0.0 7 EOF => SplitAt { input: \"a\", prefix: \"p\", places: [Time(0, 100), Frame(7), End] }

# Removals, with every kind of place among the samples.
remove a o 0 1 => Remove { input: \"a\", output: \"o\", stretches: [(Place(Frame(0)), Place(Frame(1)))] }
remove a ./-o 0.0.05 1.02.5 2samples 0.5s => Remove { input: \"a\", output: \"./-o\", stretches: [(Place(Time(5, 100)), Place(Time(6205, 100))), (Sample(2), Millis(500))] }
remove 0 1 2 0.0.030 EOF-3s EOF-0.1 3 EOF => Remove { input: \"0\", output: \"1\", stretches: [(Place(Frame(2)), Millis(30)), (Back(3000), Back(1000)), (Place(Frame(3)), Place(End))] }

# Joins.
join o a => Join { seamless: false, output: \"o\", inputs: [\"a\"] }
join --seamless o a b => Join { seamless: true, output: \"o\", inputs: [\"a\", \"b\"] }

# Forms behind `-n`.
-n --help => Help
-n -h => Help
-n --version => Version
-n list a => List { input: \"a\" }
-n info ./-n => Info { input: \"./-n\" }
-n gain -s s -w -l 0 2 a o => Gain { shift: Shift { channels: Left, steps: 2, wrap: true }, tags: false, input: \"a\", output: \"o\" }
-n gain -u a o => Undo { input: \"a\", output: \"o\" }
-n cut --least a 0 1 o => Cut { from: Frame(0), to: Frame(1), least: true, input: \"a\", output: \"o\" }
-n cut --exact a 0 1 o => CutExact { input: \"a\", from: Place(Frame(0)), to: Place(Frame(1)), output: \"o\" }
-n pack --constant 160 a o => Pack { mode: Constant(160), input: \"a\", output: \"o\" }
-n split a p 0 1 EOF => SplitAt { input: \"a\", prefix: \"p\", places: [Frame(0), Frame(1), End] }
-n split --exact a p 0 1s => SplitExact { input: \"a\", prefix: \"p\", places: [Place(Frame(0)), Millis(1000)] }
-n split a p -c s => SplitBy { exact: false, input: \"a\", prefix: \"p\", sheet: \"s\" }
-n join --seamless o a b => Join { seamless: true, output: \"o\", inputs: [\"a\", \"b\"] }
-n drill 1 2 => Drill { seed: 1, count: 2 }
-n fade --back a o s => Fade { back: true, input: \"a\", output: \"o\", sheet: \"s\" }
-n salvage a o => Salvage { input: \"a\", output: \"o\" }
-n remove a o 1 EOF => Remove { input: \"a\", output: \"o\", stretches: [(Place(Frame(1)), Place(End))] }
";

#[test]
fn the_most_places(rt: HostRuntime) -> Result<(), Fail> {
    let mut places = ArrayVec::new();
    for number in 0..100 {
        assert!(rt; places.try_push(Place::Frame(number)).is_ok());
    }
    let wanted = Job::SplitAt {
        input: "a",
        prefix: "p",
        places,
    };
    assert_eq!(rt; job(&split_words(rt.alloc(), 100)?), Ok(wanted));
    Ok(())
}

#[test]
fn the_most_stretches(rt: HostRuntime) -> Result<(), Fail> {
    let mut stretches = ArrayVec::new();
    for number in 0..50 {
        let from = ExactPlace::Place(Place::Frame(2 * number));
        let to = ExactPlace::Place(Place::Frame(2 * number + 1));
        assert!(rt; stretches.try_push((from, to)).is_ok());
    }
    let wanted = Job::Remove {
        input: "a",
        output: "o",
        stretches,
    };
    assert_eq!(rt; job(&remove_words(rt.alloc(), 100)?), Ok(wanted));
    Ok(())
}

/// How many files are joined: the fewest, two, and the most.
static COUNTS: [u32; 3] = [1, 2, 64];

#[test]
fn joins(rt: HostRuntime) -> Result<(), Fail> {
    for count in &COUNTS {
        let words = join_words(rt.alloc(), *count)?;
        assert_eq!(rt; words.len(), *count as usize + 2);
        let wanted = Job::Join {
            seamless: false,
            output: "o",
            inputs: &words[2..],
        };
        assert_eq!(rt; job(&words), Ok(wanted));
    }
    Ok(())
}

/// Words, and whether the first is `-n`.
struct First {
    words: &'static [&'static str],
    keeps: bool,
}

static FIRST_WORDS: [First; 10] = table! {
    First { words, keeps }
    (&[], false)
    (&[""], false)
    (&["-n"], true)
    (&["-n", "list", "a"], true)
    (&["-n", "-n", "list", "a"], true)
    (&["-n", "x"], true)
    (&["list", "-n"], false)
    (&["-N", "list", "a"], false)
    (&["--n", "list", "a"], false)
    (&["-ns", "s"], false)
};

#[test]
fn first_words(rt: HostRuntime) -> Result<(), Fail> {
    for case in &FIRST_WORDS {
        let words = owned(rt.alloc(), case.words)?;
        assert_eq!(rt; keeps(&words), case.keeps, "{:?}", case.words);
    }
    Ok(())
}
