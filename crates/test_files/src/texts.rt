//! Bytes as words of a text, which cost a check less than tables of values.
//!
//! Words are separated by blanks. Each stands for bytes:
//!
//! - a name that was defined before;
//! - bytes in hexadecimal, such as `fffb9000`;
//! - `'Info'`, a text, in which `_` is a blank;
//! - `word*300`, one of the first two this many times;
//! - `NAME@8=d1`, with another byte at this place, counted from 0;
//! - `~417`, zeros up to this length of the whole, in bytes.

use std::alloc::{AllocError, AllocFailed, Global};

/// Why a text stands for no bytes.
#[derive(Clone, Copy, Debug, PartialEq, Eq)]
pub enum TextFault {
    Memory,
    /// This word stands for no bytes.
    Word(&'static str),
}

impl From<AllocError> for TextFault {
    fn from(_: AllocError) -> TextFault {
        TextFault::Memory
    }
}

impl<T: Drop> From<AllocFailed<T>> for TextFault {
    fn from(_: AllocFailed<T>) -> TextFault {
        TextFault::Memory
    }
}

/// Bytes with a name.
#[derive(Drop)]
pub struct Named {
    pub name: &'static str,
    pub bytes: Vec<u8>,
}

fn bytes_named<'a>(names: &'a [Named], name: &str) -> Option<&'a [u8]> {
    for named in names {
        if named.name == name {
            return Some(named.bytes.as_slice());
        }
    }
    None
}

/// The number that these decimal digits spell.
pub fn number_of(digits: &'static str) -> Result<usize, TextFault> {
    match digits.parse::<usize>() {
        Ok(number) => Ok(number),
        Err(_) => Err(TextFault::Word(digits)),
    }
}

fn digit_of(digit: u8) -> Option<u8> {
    match digit {
        b'0'..=b'9' => Some(digit - b'0'),
        b'a'..=b'f' => Some(digit - b'a' + 10),
        _ => None,
    }
}

fn byte_of(pair: &[u8]) -> Option<u8> {
    match pair {
        [high, low] => Some(digit_of(*high)? << 4 | digit_of(*low)?),
        _ => None,
    }
}

fn push_hex(bytes: &mut Vec<u8>, word: &'static str) -> Result<(), TextFault> {
    for pair in word.as_bytes().chunks(2) {
        match byte_of(pair) {
            Some(byte) => bytes.push(byte)?,
            None => return Err(TextFault::Word(word)),
        }
    }
    Ok(())
}

fn push_quoted(bytes: &mut Vec<u8>, text: &str) -> Result<(), TextFault> {
    for byte in text.as_bytes() {
        bytes.push(if *byte == b'_' { b' ' } else { *byte })?;
    }
    Ok(())
}

fn push_known(bytes: &mut Vec<u8>, names: &[Named], word: &'static str) -> Result<(), TextFault> {
    match bytes_named(names, word) {
        Some(known) => Ok(bytes.extend_from_slice(known)?),
        None => push_hex(bytes, word),
    }
}

fn push_times(bytes: &mut Vec<u8>, once: &[u8], times: usize) -> Result<(), TextFault> {
    for _ in 0..times {
        bytes.extend_from_slice(once)?;
    }
    Ok(())
}

fn push_repeated(
    alloc: Global,
    bytes: &mut Vec<u8>,
    names: &[Named],
    word: &'static str,
    times: &'static str,
) -> Result<(), TextFault> {
    let mut once = Vec::new(alloc);
    push_known(&mut once, names, word)?;
    push_times(bytes, &once, number_of(times)?)
}

fn change(bytes: &mut [u8], at: usize, word: &'static str) -> Result<(), TextFault> {
    let Some((place, byte)) = word.split_once('=') else {
        return Err(TextFault::Word(word));
    };
    let place = number_of(place)?.saturating_add(at);
    match (bytes.get_mut(place), byte_of(byte.as_bytes())) {
        (Some(own), Some(byte)) => {
            *own = byte;
            Ok(())
        }
        _ => Err(TextFault::Word(word)),
    }
}

fn push_changed(
    bytes: &mut Vec<u8>,
    names: &[Named],
    word: &'static str,
    other: &'static str,
) -> Result<(), TextFault> {
    let at = bytes.len();
    push_known(bytes, names, word)?;
    change(bytes, at, other)
}

fn push_word(
    alloc: Global,
    bytes: &mut Vec<u8>,
    names: &[Named],
    word: &'static str,
) -> Result<(), TextFault> {
    if let Some(text) = word.strip_prefix('\'') {
        return push_quoted(bytes, text.strip_suffix('\'').unwrap_or(text));
    }
    if let Some(length) = word.strip_prefix('~') {
        return Ok(bytes.resize(number_of(length)?, 0)?);
    }
    if let Some((word, times)) = word.split_once('*') {
        return push_repeated(alloc, bytes, names, word, times);
    }
    if let Some((word, other)) = word.split_once('@') {
        return push_changed(bytes, names, word, other);
    }
    push_known(bytes, names, word)
}

/// The bytes of these words, joined.
pub fn bytes_of_words(
    alloc: Global,
    names: &[Named],
    words: &'static str,
) -> Result<Vec<u8>, TextFault> {
    let mut bytes = Vec::new(alloc);
    for word in words.split_ascii_whitespace() {
        push_word(alloc, &mut bytes, names, word)?;
    }
    Ok(bytes)
}

/// Gives a name to the bytes of some words, such as `NAME = fffb9000 ~417`.
pub fn define(alloc: Global, names: &mut Vec<Named>, line: &'static str) -> Result<(), TextFault> {
    let Some((name, words)) = line.split_once(" = ") else {
        return Err(TextFault::Word(line));
    };
    let bytes = bytes_of_words(alloc, names, words)?;
    Ok(names.push(Named { name, bytes })?)
}
