//! Words that no form takes, and the place of the first bad one, counted from 1.

use crate::tests::reading::{bad_word, join_words, remove_words, split_words};
use std::test::Fail;

pub static ROWS: &str = "
# No number of steps.
gain -s s -g 300 a b => bad word 5
gain -s s -g 256 a b => bad word 5
gain -s s -g -256 a b => bad word 5
gain -s s -g - a b => bad word 5
gain -s s -g + a b => bad word 5
gain -s s -g 0001 a b => bad word 5
gain -s s -g +-1 a b => bad word 5
gain -s s -g ++1 a b => bad word 5
gain -s s -g '' a b => bad word 5
gain -s s -g 1a a b => bad word 5
gain -s s -g x a b => bad word 5

# Gains and undo.
gain => bad word 2
gain -g 300 a b => bad word 3
gain -s t -g 3 a b => bad word 3
gain -s s -g 3 a => bad word 7
gain -s s -g 3 -a b => bad word 6
gain -s s -g 3 a '' => bad word 7
gain -s s -g 3 a b c => bad word 8
gain -w -w -g 1 a b => bad word 3
gain -s s -s s -g 1 a b => bad word 4
gain -g 1 -w a b => bad word 4
gain -w -s s -w -g 1 a b => bad word 5
gain -s s -l 2 1 a b => bad word 5
gain -w -s => bad word 4
gain -s -w -g 1 a b => bad word 3
gain -w -u a b => bad word 3
gain -s s -u a b => bad word 4
gain -u -w a b => bad word 3
gain -u a => bad word 4
gain -u a b c => bad word 5

# Files of which is said what they are.
info => bad word 2
info '' => bad word 2
info -a => bad word 2
info a b => bad word 3
Info a => bad word 1

# Splits and joins.
split => bad word 2
split a -p 0 1 => bad word 3
split a p => bad word 4
split a p 0 => bad word 5
split a p 0 x => bad word 5
split a p 0 1 -c => bad word 6
split a p -c => bad word 5
split a p -c -s => bad word 5
split a p -c s t => bad word 6
join => bad word 2
join o => bad word 3
join o a -b => bad word 4
join --seamless => bad word 3
join --seamless o => bad word 4
join --seamless o a -b => bad word 5
join --seamless --seamless o a => bad word 3
join o --seamless a => bad word 3
join --seam o a => bad word 2

# Packings in a mode.
pack --constant => bad word 3
pack --constant '' a b => bad word 3
pack --constant 1000 a b => bad word 3
pack --constant +96 a b => bad word 3
pack --constant 96 a => bad word 5
pack --constant 96 --floor 32 a b => bad word 4
pack --floor a b => bad word 3
pack --floor 32 -a b => bad word 4
pack --floor 32 a b c => bad word 6
pack --best 96 a b => bad word 5
pack --best --floor 32 a b => bad word 3

# Fades.
fade => bad word 2
fade a b => bad word 4
fade --back a b => bad word 5
fade --back --back a b s => bad word 3
fade a b s --back => bad word 5
fade a b -s => bad word 4
fade --least a b s => bad word 2

# Exact cuts. No other form has their places.
cut --exact --least a 0 1 o => bad word 3
cut --least --exact a 0 1 o => bad word 3
cut --exact a 0 o => bad word 5
cut --exact a 0 1 => bad word 6
cut --exact a 0 1 -o => bad word 6
cut --exact a 0 1 o p => bad word 7
cut a --exact 0 1 o => bad word 3
cut --exact => bad word 3
# A last `_` is a blank.
cut --exact a 4294967296samples EOF o => bad word 4
cut --exact a 0 4294967296samples o => bad word 5
cut --exact a 00000000001samples EOF o => bad word 4
cut --exact a 0 00000000001samples o => bad word 5
cut --exact a samples EOF o => bad word 4
cut --exact a 0 samples o => bad word 5
cut --exact a 1sample EOF o => bad word 4
cut --exact a 0 1sample o => bad word 5
cut --exact a 1Samples EOF o => bad word 4
cut --exact a 0 1Samples o => bad word 5
cut --exact a +1samples EOF o => bad word 4
cut --exact a 0 +1samples o => bad word 5
cut --exact a 1.0samples EOF o => bad word 4
cut --exact a 0 1.0samples o => bad word 5
cut --exact a 30samples_ EOF o => bad word 4
cut --exact a 0 30samples_ o => bad word 5
cut --exact a s EOF o => bad word 4
cut --exact a 0 s o => bad word 5
cut --exact a 1S EOF o => bad word 4
cut --exact a 0 1S o => bad word 5
cut --exact a 30S EOF o => bad word 4
cut --exact a 0 30S o => bad word 5
cut --exact a +1s EOF o => bad word 4
cut --exact a 0 +1s o => bad word 5
cut --exact a .5s EOF o => bad word 4
cut --exact a 0 .5s o => bad word 5
cut --exact a 1.s EOF o => bad word 4
cut --exact a 0 1.s o => bad word 5
cut --exact a 1.5000s EOF o => bad word 4
cut --exact a 0 1.5000s o => bad word 5
cut --exact a 1234567s EOF o => bad word 4
cut --exact a 0 1234567s o => bad word 5
cut --exact a 0.0.5s EOF o => bad word 4
cut --exact a 0 0.0.5s o => bad word 5
cut --exact a 1ms EOF o => bad word 4
cut --exact a 0 1ms o => bad word 5
cut --exact a 0.0.0005 EOF o => bad word 4
cut --exact a 0 0.0.0005 o => bad word 5
cut --exact a 0.60.000 EOF o => bad word 4
cut --exact a 0 0.60.000 o => bad word 5
cut --exact a 10000.0.000 EOF o => bad word 4
cut --exact a 0 10000.0.000 o => bad word 5
cut --exact a 0..000 EOF o => bad word 4
cut --exact a 0 0..000 o => bad word 5
cut --exact a EOF- EOF o => bad word 4
cut --exact a 0 EOF- o => bad word 5
cut --exact a EOF-3 EOF o => bad word 4
cut --exact a 0 EOF-3 o => bad word 5
cut --exact a EOF-s EOF o => bad word 4
cut --exact a 0 EOF-s o => bad word 5
cut --exact a EOF-.5s EOF o => bad word 4
cut --exact a 0 EOF-.5s o => bad word 5
cut --exact a EOF-1.s EOF o => bad word 4
cut --exact a 0 EOF-1.s o => bad word 5
cut --exact a EOF-1.5000s EOF o => bad word 4
cut --exact a 0 EOF-1.5000s o => bad word 5
cut --exact a EOF-1234567s EOF o => bad word 4
cut --exact a 0 EOF-1234567s o => bad word 5
cut --exact a EOF-1samples EOF o => bad word 4
cut --exact a 0 EOF-1samples o => bad word 5
cut --exact a EOF-0.0.5 EOF o => bad word 4
cut --exact a 0 EOF-0.0.5 o => bad word 5
cut --exact a EOF-0.0.0005 EOF o => bad word 4
cut --exact a 0 EOF-0.0.0005 o => bad word 5
cut --exact a EOF-0.60 EOF o => bad word 4
cut --exact a 0 EOF-0.60 o => bad word 5
cut --exact a eof-0.1 EOF o => bad word 4
cut --exact a 0 eof-0.1 o => bad word 5
cut --exact a eof-1s EOF o => bad word 4
cut --exact a 0 eof-1s o => bad word 5
cut a 1152samples EOF o => bad word 3
cut --least a 0 1152samples o => bad word 5
split a p 1152samples EOF => bad word 4
cut a 1s EOF o => bad word 3
cut --least a 0 1s o => bad word 5
split a p 1s EOF => bad word 4
cut a 0.5s EOF o => bad word 3
cut --least a 0 0.5s o => bad word 5
split a p 0.5s EOF => bad word 4
cut a 0.0.005 EOF o => bad word 3
cut --least a 0 0.0.005 o => bad word 5
split a p 0.0.005 EOF => bad word 4
cut a EOF-0.1 EOF o => bad word 3
cut --least a 0 EOF-0.1 o => bad word 5
split a p EOF-0.1 EOF => bad word 4
cut a EOF-1s EOF o => bad word 3
cut --least a 0 EOF-1s o => bad word 5
split a p EOF-1s EOF => bad word 4

# Exact splits.
split --exact a p 0 => bad word 6
split --exact a p => bad word 5
split -c --exact a p s => bad word 2
split --exact a p -c => bad word 6
split --exact a p -c s t => bad word 7
split --exact --exact a p -c s => bad word 3
split --exact a p 0 4294967296samples => bad word 6
split --exact a p 0 00000000001samples => bad word 6
split --exact a p 0 samples => bad word 6
split --exact a p 0 1sample => bad word 6
split --exact a p 0 1Samples => bad word 6
split --exact a p 0 +1samples => bad word 6
split --exact a p 0 1.0samples => bad word 6
split --exact a p 0 30samples_ => bad word 6
split --exact a p 0 s => bad word 6
split --exact a p 0 1S => bad word 6
split --exact a p 0 30S => bad word 6
split --exact a p 0 +1s => bad word 6
split --exact a p 0 .5s => bad word 6
split --exact a p 0 1.s => bad word 6
split --exact a p 0 1.5000s => bad word 6
split --exact a p 0 1234567s => bad word 6
split --exact a p 0 0.0.5s => bad word 6
split --exact a p 0 1ms => bad word 6
split --exact a p 0 0.0.0005 => bad word 6
split --exact a p 0 0.60.000 => bad word 6
split --exact a p 0 10000.0.000 => bad word 6
split --exact a p 0 0..000 => bad word 6
split --exact a p 0 EOF- => bad word 6
split --exact a p 0 EOF-3 => bad word 6
split --exact a p 0 EOF-s => bad word 6
split --exact a p 0 EOF-.5s => bad word 6
split --exact a p 0 EOF-1.s => bad word 6
split --exact a p 0 EOF-1.5000s => bad word 6
split --exact a p 0 EOF-1234567s => bad word 6
split --exact a p 0 EOF-1samples => bad word 6
split --exact a p 0 EOF-0.0.5 => bad word 6
split --exact a p 0 EOF-0.0.0005 => bad word 6
split --exact a p 0 EOF-0.60 => bad word 6
split --exact a p 0 eof-0.1 => bad word 6
split --exact a p 0 eof-1s => bad word 6

# Drills.
drill => bad word 2
drill 2147483648 1 => bad word 2
drill 00000000001 1 => bad word 2
drill -1 1 => bad word 2
drill 1a 1 => bad word 2
drill '' 1 => bad word 2
drill 1 0 => bad word 3
drill 1 20001 => bad word 3
drill 1 000001 => bad word 3
drill 1 1 a => bad word 4

# Removals. A second place stands behind each first one.
remove => bad word 2
remove a => bad word 3
remove a o => bad word 4
remove a o 1 => bad word 5
remove a o 0 1 1 => bad word 7
remove a -o 0 1 => bad word 3
remove --exact a o 0 1 => bad word 2
remove a o 0S 1 => bad word 4
remove a o 1.5000s 1 => bad word 4
remove a o 0 EOF-3 => bad word 5
remove a o 0 1sample => bad word 5
remove a 0 1 o => bad word 5
remove a o 0 1 -n => bad word 6
remove a o 0 1 2 x => bad word 7
-n remove a o 0 1 2 => bad word 8

# `-n` stands before a form, once.
-n => bad word 2
-n -n list a => bad word 2
list -n a => bad word 2
list a -n => bad word 3
gain -n -g 2 a o => bad word 2
gain -g 2 -n a o => bad word 4
-n gain -g 300 a o => bad word 4
-n cut a 0 => bad word 5
-n list => bad word 3
-N list a => bad word 1
--n list a => bad word 1
-ns s => bad word 1
-n x => bad word 2
-n '' => bad word 2
-n gain -w -u a o => bad word 4
-n join o => bad word 4
-n split a p 0 => bad word 6

# The other forms, and none.
=> bad word 1
lisp a => bad word 1
-v => bad word 1
--help list => bad word 2
list => bad word 2
list -a => bad word 2
list a b => bad word 3
cut a 0 => bad word 4
cut a 0 1.60 b => bad word 4
cut --least a 0 b => bad word 5
cut --least --least a 0 1 b => bad word 3
pack --least a b => bad word 2
pack a => bad word 3
";

/// A split has at most 100 positions, a join at most 64 inputs, and a removal at most 50 pairs of places.
#[test]
fn one_word_too_many(rt: HostRuntime) -> Result<(), Fail> {
    assert_eq!(rt; bad_word(&split_words(rt.alloc(), 101)?), Some(104));
    assert_eq!(rt; bad_word(&join_words(rt.alloc(), 65)?), Some(67));
    assert_eq!(rt; bad_word(&remove_words(rt.alloc(), 99)?), Some(103));
    assert_eq!(rt; bad_word(&remove_words(rt.alloc(), 101)?), Some(104));
    assert_eq!(rt; bad_word(&remove_words(rt.alloc(), 102)?), Some(104));
    Ok(())
}
