//! Lists of words, and how they are read.

use super::{bad_words, words_read};
use mp3_cli::job;
use std::alloc::{AllocError, Global};
use std::test::Fail;

pub fn owned(alloc: Global, words: &[&str]) -> Result<Vec<String>, AllocError> {
    let mut owned = Vec::new(alloc);
    for word in words {
        owned.push(String::from_str(alloc, word)?)?;
    }
    Ok(owned)
}

/// The place of the first bad word, where there is one.
pub fn bad_word(words: &[String]) -> Option<u32> {
    match job(words) {
        Ok(_) => None,
        Err(place) => Some(place),
    }
}

/// These words, and behind them the numbers of `count` frames, from 0 on.
fn frame_words(alloc: Global, front: &[&str], count: u32) -> Result<Vec<String>, AllocError> {
    let mut words = owned(alloc, front)?;
    for number in 0..count {
        words.push(format!(in alloc; "{number}")?)?;
    }
    Ok(words)
}

/// The words of a split of `a` with the prefix `p` at `count` frames, from 0 on.
pub fn split_words(alloc: Global, count: u32) -> Result<Vec<String>, AllocError> {
    frame_words(alloc, &["split", "a", "p"], count)
}

/// The words of a removal from `a` to `o` with `count` frames, from 0 on, for places: each even one goes, and each odd one stays.
pub fn remove_words(alloc: Global, count: u32) -> Result<Vec<String>, AllocError> {
    frame_words(alloc, &["remove", "a", "o"], count)
}

/// The words of a join of `a`, `count` times, to `o`.
pub fn join_words(alloc: Global, count: u32) -> Result<Vec<String>, AllocError> {
    let mut words = owned(alloc, &["join", "o"])?;
    for _ in 0..count {
        words.push(String::from_str(alloc, "a")?)?;
    }
    Ok(words)
}

/// A word of a line: `''` is the empty one, and a last `_` a blank.
fn word_of(alloc: Global, word: &str) -> Result<String, AllocError> {
    if word == "''" {
        return Ok(String::new(alloc));
    }
    match word.strip_suffix("_") {
        Some(front) => format!(in alloc; "{front} "),
        None => String::from_str(alloc, word),
    }
}

/// The words of a line.
fn words_of(alloc: Global, line: &str) -> Result<Vec<String>, AllocError> {
    let mut words = Vec::new(alloc);
    for word in line.split_ascii_whitespace() {
        words.push(word_of(alloc, word)?)?;
    }
    Ok(words)
}

/// What the words ask for, or the place of the first bad word.
fn read(alloc: Global, words: &[String]) -> Result<String, AllocError> {
    match job(words) {
        Ok(job) => format!(in alloc; "{job:?}"),
        Err(place) => format!(in alloc; "bad word {place}"),
    }
}

fn other_than(alloc: Global, words: &str, wanted: &str) -> Result<Option<String>, AllocError> {
    let found = read(alloc, &words_of(alloc, words)?)?;
    if found.as_str() == wanted {
        return Ok(None);
    }
    Ok(Some(format!(in alloc; "{words}: {found}")?))
}

/// Reads a line. A line that expects nothing is a fault, so that none is passed over.
fn unlike_in(alloc: Global, line: &str) -> Result<Option<String>, AllocError> {
    match line.split_once("=> ") {
        Some((words, wanted)) => other_than(alloc, words, wanted),
        None if line.is_empty() || line.starts_with("# ") => Ok(None),
        None => Ok(Some(String::from_str(alloc, line)?)),
    }
}

/// The first words that aren't read as their line says, and how they are read. Each line has words and `=> `, and then what they ask
/// for, or which word is bad.
fn first_unlike(alloc: Global, rows: &str) -> Result<Option<String>, AllocError> {
    for line in rows.lines() {
        let unlike = unlike_in(alloc, line)?;
        if unlike.is_some() {
            return Ok(unlike);
        }
    }
    Ok(None)
}

/// The words that have a form, and the words that no form takes.
#[test]
fn words(rt: HostRuntime) -> Result<(), Fail> {
    assert_eq!(rt; first_unlike(rt.alloc(), words_read::ROWS)?, None);
    assert_eq!(rt; first_unlike(rt.alloc(), bad_words::ROWS)?, None);
    Ok(())
}
