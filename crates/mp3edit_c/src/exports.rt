//! What C calls.
ghost use Rattle.std.specs.Prelude.{◌≡◌, ◌≢◌, None};
ghost use Rattle.session.specs.Runs.{RunsWords};
ghost use Rattle.session.specs.Shown.{empty_session, shown};
ghost use Rattle.mp3edit_c.specs.Answers.{no_memory, CopiesFile, CopiesName, CopiesText, Drops, Puts, Words};
ghost use Rattle.mp3edit_c.specs.Copied.{Copies};
ghost use Rattle.mp3edit_c.specs.Handle.{shows};

use crate::handle::Handle;
use session::Session;
use std::alloc::Global;
use std::str;

/// It was done.
const DONE: u8 = 0;

/// A name or a word isn't UTF-8.
const NOT_TEXT: u8 = 5;

/// There is no such file.
const ABSENT: u8 = 6;

/// Memory was refused before anything was done.
const NO_MEMORY: u8 = 7;

// Copies the first bytes, as many as there are and fit, and returns how many there are.
fn copy_out(bytes: &[u8], into: &mut [u8]) -> usize
    ensures { Copies bytes.now into.old into.new result }
{
    let count = bytes.len().min(into.len());
    into[..count].copy_from_slice(&bytes[..count]);
    bytes.len()
}

/// Makes the name's file a copy of these bytes, whether or not it is there.
///
/// Answers 0; 5 if the name isn't UTF-8; 7 if memory is refused. With 5 and 7 nothing was done.
#[unsafe(no_mangle)]
pub extern "C" fn mp3edit_put(alloc: Global, session: &mut Handle, name: &[u8], bytes: &[u8]) -> u8
    ensures { Puts name.now bytes.now (shows session.old.inner) (shows session.new.inner) result }
{
    let Ok(name) = str::from_utf8(name) else {
        return NOT_TEXT;
    };
    match session.open(alloc) {
        Ok(mut held) => {
            let answer = match held.put(name, bytes) {
                Ok(()) => DONE,
                Err(_) => NO_MEMORY,
            };
            session.give(alloc, held);
            answer
        }
        Err(_) => NO_MEMORY,
    }
}

/// Takes the name away.
///
/// Answers 0; 5 if the name isn't UTF-8; 6 if it isn't there. With 5 and 6 nothing was done.
#[unsafe(no_mangle)]
pub extern "C" fn mp3edit_drop(alloc: Global, session: &mut Handle, name: &[u8]) -> u8
    ensures { Drops name.now (shows session.old.inner) (shows session.new.inner) result }
{
    let Ok(name) = str::from_utf8(name) else {
        return NOT_TEXT;
    };
    match session.take(alloc) {
        Some(mut held) => {
            let was_there = held.remove(name);
            session.give(alloc, held);
            if was_there { DONE } else { ABSENT }
        }
        None => ABSENT,
    }
}

/// Adds a word behind those that are there.
///
/// Answers 0; 5 if the word isn't UTF-8; 7 if memory is refused. With 5 and 7 nothing was done.
#[unsafe(no_mangle)]
pub extern "C" fn mp3edit_word(alloc: Global, session: &mut Handle, word: &[u8]) -> u8
    ensures { Words word.now (shows session.old.inner) (shows session.new.inner) result }
{
    let Ok(word) = str::from_utf8(word) else {
        return NOT_TEXT;
    };
    match session.open(alloc) {
        Ok(mut held) => {
            let answer = match held.word(word) {
                Ok(()) => DONE,
                Err(_) => NO_MEMORY,
            };
            session.give(alloc, held);
            answer
        }
        Err(_) => NO_MEMORY,
    }
}

/// Does what the words ask for, as the program does over a folder of these files, and forgets the words. What the last
/// command sent is forgotten first.
///
/// Answers the program's status, 0 to 4; or 7 if the session held nothing and memory for it is refused. Then nothing was done.
#[unsafe(no_mangle)]
pub extern "C" fn mp3edit_run(alloc: Global, session: &mut Handle) -> u8
    ensures ran { result ≢ no_memory
        → RunsWords (shows session.old.inner) (shows session.new.inner) result }
    ensures kept { result ≡ no_memory → shows session.new.inner ≡ shows session.old.inner }
    ensures held { result ≡ no_memory → session.old.inner ≡ None }
{
    match session.open(alloc) {
        Ok(mut held) => {
            let status = held.run();
            session.give(alloc, held);
            status
        }
        Err(_) => NO_MEMORY,
    }
}

/// Copies the first bytes of the file, as many as it has and fit into the room, and stores how many it has.
///
/// Answers 0; 5 if the name isn't UTF-8; 6 if it isn't there. With 5 and 6 nothing is copied or stored.
#[unsafe(no_mangle)]
pub extern "C" fn mp3edit_get(
    alloc: Global,
    session: &mut Handle,
    name: &[u8],
    into: &mut [u8],
    size: &mut usize,
) -> u8
    ensures copied { CopiesFile name.now (shows session.old.inner) into.old into.new size.old
        size.new result }
    ensures kept { shows session.new.inner ≡ shows session.old.inner }
{
    let Ok(name) = str::from_utf8(name) else {
        return NOT_TEXT;
    };
    match session.take(alloc) {
        Some(held) => {
            let answer = copy_file(&held, name, into, size);
            session.give(alloc, held);
            answer
        }
        None => ABSENT,
    }
}

// Copies what the session has of the file.
fn copy_file(held: &Session, name: &str, into: &mut [u8], size: &mut usize) -> u8
    ensures { CopiesFile name.now (shown held.now) into.old into.new size.old size.new result }
{
    match held.file(name) {
        Some(bytes) => {
            *size = copy_out(bytes, into);
            DONE
        }
        None => ABSENT,
    }
}

/// Copies the first bytes of the name with this number, counted from 0 in the order of the names' bytes, as many as it has
/// and fit into the room, and stores how many it has.
///
/// Answers 0; 6 if there are no more names. Then nothing is copied or stored.
#[unsafe(no_mangle)]
pub extern "C" fn mp3edit_name(
    alloc: Global,
    session: &mut Handle,
    number: usize,
    into: &mut [u8],
    size: &mut usize,
) -> u8
    ensures copied { CopiesName number (shows session.old.inner) into.old into.new size.old
        size.new result }
    ensures kept { shows session.new.inner ≡ shows session.old.inner }
{
    match session.take(alloc) {
        Some(held) => {
            let answer = copy_name(&held, number, into, size);
            session.give(alloc, held);
            answer
        }
        None => ABSENT,
    }
}

// Copies the name with this number.
fn copy_name(held: &Session, number: usize, into: &mut [u8], size: &mut usize) -> u8
    ensures { CopiesName number (shown held.now) into.old into.new size.old size.new result }
{
    match held.name(number) {
        Some(name) => {
            *size = copy_out(name.as_bytes(), into);
            DONE
        }
        None => ABSENT,
    }
}

/// Copies the first bytes of what the last command sent to standard output, as many as there are and fit into the room, and
/// stores how many there are. Answers 0.
#[unsafe(no_mangle)]
pub extern "C" fn mp3edit_text(
    alloc: Global,
    session: &mut Handle,
    into: &mut [u8],
    size: &mut usize,
) -> u8
    ensures copied { CopiesText (shows session.old.inner).text.bytes into.old into.new size.new
        result }
    ensures kept { shows session.new.inner ≡ shows session.old.inner }
{
    match session.take(alloc) {
        Some(held) => {
            *size = copy_out(held.text(), into);
            session.give(alloc, held);
        }
        None => *size = 0,
    }
    DONE
}

/// Copies the first bytes of what the last command sent to standard error, as many as there are and fit into the room, and
/// stores how many there are. Answers 0.
#[unsafe(no_mangle)]
pub extern "C" fn mp3edit_line(
    alloc: Global,
    session: &mut Handle,
    into: &mut [u8],
    size: &mut usize,
) -> u8
    ensures copied { CopiesText (shows session.old.inner).line.bytes into.old into.new size.new
        result }
    ensures kept { shows session.new.inner ≡ shows session.old.inner }
{
    match session.take(alloc) {
        Some(held) => {
            *size = copy_out(held.line(), into);
            session.give(alloc, held);
        }
        None => *size = 0,
    }
    DONE
}

/// Frees all that the session holds. It is an empty session then.
#[unsafe(no_mangle)]
pub extern "C" fn mp3edit_free(alloc: Global, session: &mut Handle)
    ensures freed { session.new.inner ≡ None }
    ensures empty { shows session.new.inner ≡ empty_session }
{
    drop(session.take(alloc));
}
