//! Where a stream begins, and what is found from there on: frames, blocks and zero bytes.

use crate::bits::bytes_from;
use crate::frame::{Found, Frame, header_at};
use std::alloc::{AllocError, Global};
use sync_survey::SurveyFault;

fn id3v2_length(bytes: &[u8]) -> Option<usize> {
    let [b'I', b'D', b'3', major, minor, flags, a, b, c, d, ..] = bytes else {
        return None;
    };
    if *major == 0xff || *minor == 0xff || (*a | *b | *c | *d) >= 0x80 {
        return None;
    }
    let size = u32::from(*a) << 21 | u32::from(*b) << 14 | u32::from(*c) << 7 | u32::from(*d);
    let ends = if *flags & 0x10 == 0 { 10 } else { 20 };
    Some((size as usize).saturating_add(ends))
}

/// The length of an APEv2 block by its header: text, version and size, then a count, flags which say that the tag has a header
/// and that this is it, and eight more bytes.
fn ape_length(bytes: &[u8]) -> Option<usize> {
    if bytes.len() < 32 || !bytes.starts_with(b"APETAGEX\xd0\x07\0\0") {
        return None;
    }
    let [a, b, c, d, _, _, _, _, _, _, _, flags, ..] = bytes_from(bytes, 12) else {
        return None;
    };
    let size = u32::from_le_bytes([*a, *b, *c, *d]);
    if size < 32 || *flags & 0xa0 != 0xa0 {
        return None;
    }
    Some((size as usize).saturating_add(32))
}

fn block_length(bytes: &[u8]) -> Option<usize> {
    if bytes.starts_with(b"TAG") {
        return Some(128);
    }
    id3v2_length(bytes).or(ape_length(bytes))
}

fn found_at(file: &[u8], at: usize) -> Found {
    let bytes = bytes_from(file, at);
    if let Some(found) = header_at(at, bytes) {
        return found;
    }
    match (block_length(bytes), bytes.first()) {
        (Some(length), _) => Found::Block(length),
        (None, Some(0)) => Found::ZeroByte,
        (None, Some(_)) => Found::Nothing,
        (None, None) => Found::End,
    }
}

fn is_whole(file: &[u8], at: usize, length: usize) -> bool {
    at.saturating_add(length) <= file.len()
}

/// The offset after all whole blocks and zero bytes that the file begins with.
fn front_end(file: &[u8]) -> usize {
    let mut at = 0;
    for _ in file {
        at = match found_at(file, at) {
            Found::Block(length) if is_whole(file, at, length) => at.saturating_add(length),
            Found::ZeroByte => at.saturating_add(1),
            _ => return at,
        };
    }
    at
}

/// Whether the frame is whole and ends where a header of its class, a block, or nothing more follows.
fn is_anchored(file: &[u8], frame: &Frame) -> bool {
    let end = frame.at.saturating_add(frame.length);
    if end > file.len() {
        return false;
    }
    match found_at(file, end) {
        Found::Frame(next) => next.class == frame.class,
        Found::Block(_) | Found::End => true,
        _ => false,
    }
}

fn anchored_behind(file: &[u8], front_end: usize) -> Option<usize> {
    for junk in 1..=65_536 {
        let at = front_end.saturating_add(junk);
        if let Found::Frame(frame) = found_at(file, at)
            && is_anchored(file, &frame)
        {
            return Some(at);
        }
    }
    None
}

/// The offset of the first frame.
pub(crate) fn start(file: &[u8]) -> Result<usize, SurveyFault> {
    let at = front_end(file);
    let offset = at as u64;
    match found_at(file, at) {
        Found::Frame(frame) if is_whole(file, at, frame.length) => Ok(at),
        Found::Frame(_) | Found::Block(_) => Err(SurveyFault::Truncated(offset)),
        Found::FreeFormat => Err(SurveyFault::FreeFormat(offset)),
        _ => anchored_behind(file, at).ok_or(SurveyFault::NoFrame(offset)),
    }
}

/// What is found from the first frame on: all whole
/// frames, and the fault where the stream ends too early.
#[derive(Drop)]
pub(crate) struct Stream {
    pub(crate) frames: Vec<Frame>,
    pub(crate) faults: Vec<SurveyFault>,
}

impl Stream {
    /// Takes in what is at the offset, and returns the offset after it.
    fn take_in(&mut self, file: &[u8], at: usize) -> Result<Option<usize>, AllocError> {
        let offset = at as u64;
        let length = match found_at(file, at) {
            Found::Frame(frame) if is_whole(file, at, frame.length) => {
                self.frames.push(frame)?;
                frame.length
            }
            Found::Block(length) if is_whole(file, at, length) => length,
            Found::ZeroByte => 1,
            Found::End => return Ok(None),
            Found::Frame(_) | Found::Block(_) => {
                self.faults.push(SurveyFault::Truncated(offset))?;
                return Ok(None);
            }
            Found::FreeFormat => {
                self.faults.push(SurveyFault::FreeFormat(offset))?;
                return Ok(None);
            }
            Found::Nothing => {
                self.faults.push(SurveyFault::LostSync(offset))?;
                return Ok(None);
            }
        };
        Ok(Some(at.saturating_add(length)))
    }
}

pub(crate) fn stream_from(alloc: Global, file: &[u8], first: usize) -> Result<Stream, AllocError> {
    let mut stream = Stream {
        frames: Vec::new(alloc),
        faults: Vec::new(alloc),
    };
    let mut at = first;
    for _ in 0..=file.len() {
        match stream.take_in(file, at)? {
            Some(next) => at = next,
            None => return Ok(stream),
        }
    }
    Ok(stream)
}
