//! The fields of the Info frame of a file, from the frames after it.
ghost use Rattle.std.specs.Prelude.{◌≡◌, ◌*◌, ◌<◌, ◌≤◌, ◌==◌, length};
ghost use Rattle.std.specs.List.{list_all};
ghost use Rattle.frame_header.specs.Fields.{SlotFields};
ghost use Rattle.frame_header.specs.Limits.{most_output_frames, most_frame_length};
ghost use Rattle.info_header.specs.FileInfo.{frames_length, bit_rate_of, has_one_rate, IsTableOver, IsInfoOver};

use crate::fields::{Info, entry};
use crate::writing::info_slot;
use frame_header::{Class, Slot};

/// Something that is in a slot, such as a frame, or the slot alone.
pub trait InSlot {
    ghost slot_of: { Self → SlotFields };

    /// The slot that it is in.
    fn slot(&self) -> Slot
        ensures { result ≡ slot_of self.now };
}

impl InSlot for Slot {
    ghost slot_of = { λ s. s };

    fn slot(&self) -> Slot {
        *self
    }
}

/// The bytes of these frames together, at most 1,441 for each.
fn bytes_in<F: InSlot>(class: Class, frames: &[F]) -> u32
    requires few { length frames.now ≤ most_output_frames }
    ensures bytes { result ≡ frames_length class F.slot_of frames.now }
    ensures most { result ≤ most_frame_length * length frames.now }
{
    let mut bytes = 0;
    for frame in frames {
        bytes += class.length_of(frame.slot());
    }
    bytes
}

/// Whether all frames have this bit rate in kbit/s.
fn have_rate<F: InSlot>(class: Class, frames: &[F], rate: u32) -> bool
    ensures { result ≡ list_all (λ frame. bit_rate_of class F.slot_of frame == rate) frames.now }
{
    for frame in frames {
        if class.rate(frame.slot()) != rate {
            return false;
        }
    }
    true
}

/// Whether all frames have the bit rate of the first.
fn has_one_rate<F: InSlot>(class: Class, frames: &[F]) -> bool
    ensures { result ≡ has_one_rate class F.slot_of frames.now }
{
    match frames.first() {
        Some(first) => have_rate(class, frames, class.rate(first.slot())),
        None => true,
    }
}

/// The seek table of n frames with `before` bytes before them, out of `bytes` bytes: entry i is the entry
/// of frame `i * n / 100`, rounded down.
fn table_over<F: InSlot>(class: Class, frames: &[F], before: u32, bytes: u32) -> [u8; 100]
    requires few { length frames.now ≤ most_output_frames }
    requires short { before ≤ most_frame_length }
    requires some { 0 < bytes }
    ensures { IsTableOver class F.slot_of frames.now before bytes result }
{
    let mut table = [0; 100];
    let mut at = 0;
    let mut offset = before;
    for i in 0..100 {
        let next = i * frames.len() / 100;
        offset += bytes_in(class, &frames[at..next]);
        at = next;
        table[i] = entry(offset, bytes);
    }
    table
}

/// The fields of the Info frame before these frames, at most 2,900,064: their number, the bytes of the Info
/// frame and of all of them, and the seek table by their offsets from the Info frame's first byte. The text
/// is `Info` where all have one bit rate, otherwise `Xing`. There is no quality, and the extension is all
/// 0.
pub fn info_over<F: InSlot>(class: Class, frames: &[F]) -> Info
    requires few { length frames.now ≤ most_output_frames }
    ensures { IsInfoOver class F.slot_of frames.now result }
{
    let before = class.length_of(info_slot(class));
    let bytes = before + bytes_in(class, frames);
    Info {
        vbr: !has_one_rate(class, frames),
        frames: Some(frames.len() as u32),
        bytes: Some(bytes),
        table: Some(table_over(class, frames, before, bytes)),
        quality: None,
        extension: [0; 36],
    }
}
