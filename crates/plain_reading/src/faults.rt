//! The faults of all frames of a file, and the least of them.

use crate::bits::{bit, bytes_from, number};
use crate::frame::{Class, Frame, side_size};
use crate::stream::{Stream, start, stream_from};
use std::alloc::{AllocError, Global};
use sync_survey::SurveyFault;

fn begins_with_text(bytes: &[u8]) -> bool {
    bytes.starts_with(b"Xing") || bytes.starts_with(b"Info")
}

/// Whether the frame has the text of a head after its side information, or where that would end without
/// a check word.
fn is_head(file: &[u8], frame: &Frame) -> bool {
    let bytes = bytes_from(file, frame.at);
    let early = bytes_from(bytes, side_size(&frame.class).saturating_add(4));
    let late = bytes_from(bytes, frame.area_at);
    begins_with_text(early) || begins_with_text(late)
}

/// The lengths in bits of the main data of each granule and channel, added up.
fn payload_bits(frame: &Frame, bytes: &[u8]) -> u32 {
    let (first, size, granules) = match (frame.class.is_mpeg_1, frame.class.channels) {
        (true, 2) => (20, 59, 2),
        (true, _) => (18, 59, 2),
        (false, 2) => (10, 63, 1),
        (false, _) => (9, 63, 1),
    };
    let mut at = frame.side_at.saturating_mul(8).saturating_add(first);
    let mut sum: u32 = 0;
    for _ in 0..granules {
        for _ in 0..frame.class.channels {
            sum = sum.saturating_add(number(bytes, at, 12));
            at = at.saturating_add(size);
        }
    }
    sum
}

fn main_data_begin(frame: &Frame, bytes: &[u8]) -> u32 {
    let width = if frame.class.is_mpeg_1 { 9 } else { 8 };
    number(bytes, frame.side_at.saturating_mul(8), width)
}

/// The remainder by x^16 + x^15 + x^2 + 1, bit by bit, starting from this word (ISO/IEC 11172-3,
/// 2.4.3.1).
fn remainder_behind(word: u16, bytes: &[u8], from: usize, to: usize) -> u16 {
    let mut word = word;
    for at in from..to {
        let leaves = (word >> 15 == 1) != bit(bytes, at);
        word <<= 1;
        if leaves {
            word ^= 0x8005;
        }
    }
    word
}

/// The check word that is in a protected frame.
fn word_said(bytes: &[u8]) -> u16 {
    match bytes {
        [_, _, _, _, high, low, ..] => u16::from_be_bytes([*high, *low]),
        _ => 0,
    }
}

/// The right check word, over the second half of the header
/// and the side information, starting from all ones.
fn word_right(frame: &Frame, bytes: &[u8]) -> u16 {
    let header = remainder_behind(0xffff, bytes, 16, 32);
    let side_at = frame.side_at.saturating_mul(8);
    remainder_behind(header, bytes, side_at, frame.area_at.saturating_mul(8))
}

/// The areas of these frames, joined.
fn main_data(alloc: Global, file: &[u8], frames: &[Frame]) -> Result<Vec<u8>, AllocError> {
    let mut joined = Vec::new(alloc);
    for frame in frames {
        let bytes = bytes_from(file, frame.at);
        let whole = bytes.get(..frame.length).unwrap_or(bytes);
        joined.extend_from_slice(bytes_from(whole, frame.area_at))?;
    }
    Ok(joined)
}

/// A numbered frame and its main data.
#[derive(Clone, Copy)]
struct Numbered<'a> {
    frame: Frame,
    /// The bytes of the file from the frame on.
    bytes: &'a [u8],
    begin: u32,
    bits: u32,
    /// The main data of the file before the frame's own area, in bytes.
    before: u64,
    /// The main data up to the end of the frame's own area, in bytes.
    up_to: u64,
}

impl<'a> Numbered<'a> {
    fn new(
        alloc: Global,
        file: &'a [u8],
        all: &[Frame],
        nth: usize,
    ) -> Result<Option<Self>, AllocError> {
        let Some(frame) = all.get(nth) else {
            return Ok(None);
        };
        let bytes = bytes_from(file, frame.at);
        let earlier = all.get(..nth).unwrap_or(all);
        let with_own = all.get(..nth.saturating_add(1)).unwrap_or(all);
        Ok(Some(Numbered {
            frame: *frame,
            bytes,
            begin: main_data_begin(frame, bytes),
            bits: payload_bits(frame, bytes),
            before: main_data(alloc, file, earlier)?.len() as u64,
            up_to: main_data(alloc, file, with_own)?.len() as u64,
        }))
    }

    /// The place where its main data begin, which may be before all.
    fn start(&self) -> i128 {
        i128::from(self.before) - i128::from(self.begin)
    }

    /// The place where its main data end.
    fn end(&self) -> i128 {
        self.start()
            .saturating_add(i128::from(self.bits.div_ceil(8)))
    }

    /// The bits from main_data_begin bytes before its own area to the end of that area.
    fn room(&self) -> u32 {
        let own = self.up_to.saturating_sub(self.before);
        let bytes = u64::from(self.begin).saturating_add(own);
        u32::try_from(bytes.saturating_mul(8)).unwrap_or(u32::MAX)
    }
}

/// Whether the frame is lost: its main data begin before the main data
/// of the whole file, and each frame before it is silent or lost.
fn is_lost(
    alloc: Global,
    file: &[u8],
    all: &[Frame],
    first: usize,
    nth: usize,
) -> Result<bool, AllocError> {
    for earlier in first..=nth {
        if let Some(numbered) = Numbered::new(alloc, file, all, earlier)?
            && (numbered.bits > 0 || earlier == nth)
            && numbered.start() >= 0
        {
            return Ok(false);
        }
    }
    Ok(true)
}

/// The place where the main data end of the last frame before this one that has any and isn't lost.
fn end_before(
    alloc: Global,
    file: &[u8],
    all: &[Frame],
    first: usize,
    nth: usize,
) -> Result<i128, AllocError> {
    for earlier in (first..nth).rev() {
        if let Some(numbered) = Numbered::new(alloc, file, all, earlier)?
            && numbered.bits > 0
            && !is_lost(alloc, file, all, first, earlier)?
        {
            return Ok(numbered.end());
        }
    }
    Ok(0)
}

/// All faults of the main data of the frame.
fn push_data_faults(
    numbered: &Numbered<'_>,
    ended: i128,
    faults: &mut Vec<SurveyFault>,
) -> Result<(), AllocError> {
    let at = numbered.frame.at as u64;
    if numbered.end() > i128::from(numbered.up_to) {
        faults.push(SurveyFault::Overrun(at, numbered.bits, numbered.room()))?;
    }
    if numbered.start() < ended {
        faults.push(SurveyFault::Overlap(at))?;
    }
    if numbered.start() < 0 {
        faults.push(SurveyFault::BackPointer(at, numbered.begin, numbered.before))?;
    }
    Ok(())
}

/// All other faults of the frame.
fn push_faults(
    numbered: &Numbered<'_>,
    class: &Class,
    is_too_many: bool,
    faults: &mut Vec<SurveyFault>,
) -> Result<(), AllocError> {
    let at = numbered.frame.at as u64;
    if is_too_many {
        faults.push(SurveyFault::TooManyFrames(at))?;
    }
    let said = word_said(numbered.bytes);
    let right = word_right(&numbered.frame, numbered.bytes);
    if numbered.frame.is_protected && said != right {
        faults.push(SurveyFault::CheckWord(at, said, right))?;
    }
    if numbered.frame.class != *class {
        faults.push(SurveyFault::Mixed(at))?;
    }
    Ok(())
}

/// The faults of all numbered frames. The first frame isn't numbered where it is a head.
fn push_all(
    alloc: Global,
    file: &[u8],
    all: &[Frame],
    allowed: usize,
    faults: &mut Vec<SurveyFault>,
) -> Result<(), AllocError> {
    let Some(first_frame) = all.first() else {
        return Ok(());
    };
    let first = usize::from(is_head(file, first_frame));
    if all.len() == first {
        faults.push(SurveyFault::NoFrame(file.len() as u64))?;
    }
    for nth in first..all.len() {
        if let Some(numbered) = Numbered::new(alloc, file, all, nth)? {
            if !is_lost(alloc, file, all, first, nth)? {
                let ended = end_before(alloc, file, all, first, nth)?;
                push_data_faults(&numbered, ended, faults)?;
            }
            let is_too_many = nth == first.saturating_add(allowed);
            push_faults(&numbered, &first_frame.class, is_too_many, faults)?;
        }
    }
    Ok(())
}

/// The offset of a fault of a file's bytes, and its place in the order of faults at one offset.
fn rank(fault: &SurveyFault) -> (u64, u32) {
    match fault {
        SurveyFault::NoFrame(at) => (*at, 0),
        SurveyFault::LostSync(at) => (*at, 1),
        SurveyFault::Truncated(at) => (*at, 2),
        SurveyFault::FreeFormat(at) => (*at, 3),
        SurveyFault::Mixed(at) => (*at, 4),
        SurveyFault::CheckWord(at, _, _) => (*at, 5),
        SurveyFault::BackPointer(at, _, _) => (*at, 6),
        SurveyFault::Overlap(at) => (*at, 7),
        SurveyFault::Overrun(at, _, _) => (*at, 8),
        SurveyFault::TooManyFrames(at) => (*at, 9),
        _ => (u64::MAX, 10),
    }
}

/// The fault with the least rank.
fn least(faults: &[SurveyFault]) -> Option<SurveyFault> {
    let mut least = *faults.first()?;
    for fault in faults {
        if rank(fault) < rank(&least) {
            least = *fault;
        }
    }
    Some(least)
}

/// The fault at the least offset, and at one offset the first in the order of `SurveyFault`.
pub fn first_fault(
    alloc: Global,
    file: &[u8],
    allowed: u32,
) -> Result<Option<SurveyFault>, AllocError> {
    let first = match start(file) {
        Ok(first) => first,
        Err(fault) => return Ok(Some(fault)),
    };
    let Stream { frames, mut faults } = stream_from(alloc, file, first)?;
    push_all(alloc, file, &frames, allowed as usize, &mut faults)?;
    Ok(least(&faults))
}
