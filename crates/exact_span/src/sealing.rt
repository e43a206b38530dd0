//! Music length and tag CRC of an Info frame.
ghost use Rattle.std.specs.Prelude.{◌≡◌, ◌+◌, ◌≤◌, ◌++◌, length, take, drop};
ghost use Rattle.byteorder.specs.Endian.{big_bytes};
ghost use Rattle.exact_span.specs.TagWord.{text_offset, arc_of, with_music_length, with_tag_crc, sealed_frame};

use crate::crc::arc;
use arrayvec::ArrayVec;
use frame_header::Class;

/// Where the number of bytes is, in bytes from the text: after the text, the flags and the number
/// of frames.
const BYTES_AT: usize = 12;

/// Where the music length is: in the bytes 28 to 31 of the extension.
const MUSIC_AT: usize = 148;

/// Where the tag CRC is: in the bytes 34 and 35.
const CRC_AT: usize = 154;

/// Writes the music length, given the offset of the text.
fn put_length(frame: &mut [u8], text: usize)
    requires text { text ≤ 100 }
    requires room { text + 156 ≤ length frame.old }
    ensures length { frame.new ≡ take (text + 148) frame.old
        ++ (take 4 (drop (text + 12) frame.old) ++ drop (text + 152) frame.old) }
{
    let bytes = text + BYTES_AT;
    frame.copy_within(bytes..bytes + 4, text + MUSIC_AT);
}

/// Writes the tag CRC at this offset.
fn put_crc(frame: &mut [u8], at: usize)
    requires at { at ≤ 1000 }
    requires room { at + 2 ≤ length frame.old }
    ensures crc { frame.new ≡ take at frame.old
        ++ (big_bytes 2 (arc_of 0 (take at frame.old)) ++ drop (at + 2) frame.old) }
{
    let word = arc(0, &frame[..at]);
    frame[at..at + 2].copy_from_slice(&word.to_be_bytes());
}

/// Writes both into the bytes of the frame.
#[tactic(auto, unfolding(crate::specs::TagWord::with_music_length, crate::specs::TagWord::with_tag_crc))]
fn seal_bytes(class: Class, frame: &mut [u8])
    requires { text_offset class + 156 ≤ length frame.old }
    ensures { frame.new ≡ sealed_frame class frame.old }
{
    let text = 4 + class.side_size() as usize;
    put_length(frame, text);
    put_crc(frame, text + CRC_AT);
}

/// Writes music length and tag CRC into a whole Info frame of `write_info`, of a file of this
/// class: into the bytes 28 to 31 of the extension the number of bytes that the frame states, and
/// into the bytes 34 and 35 the CRC of all bytes of the frame before them, both with the most
/// significant byte first. Everything else stays.
pub fn seal(class: Class, frame: &mut ArrayVec<u8, 1441>)
    requires { text_offset class + 156 ≤ length frame.old.items }
    ensures { frame.new.items ≡ sealed_frame class frame.old.items }
{
    seal_bytes(class, frame.as_mut_slice());
}
