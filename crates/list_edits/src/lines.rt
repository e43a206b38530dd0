//! The lines of a listing.
ghost use Rattle.std.specs.Prelude.{◌≡◌, ◌+◌, ◌<◌, ◌≤◌, ◌++◌, true, false, [], length, codes};
ghost use Rattle.list_edits.specs.Listing.{kind_name, version_name, extent, frame_line, thing_line, IsNextLine, time_text, hundredths, class_text, summary};
ghost use Rattle.list_edits.specs.Things.{things_left};

use crate::leading_digits::LeadingDigits;
use crate::line::Line;
use crate::rate_text::put_rate;
use crate::things::{Thing, Things};
use frame_header::{Class, Version};
use itoa::Buffer;
use sync_survey::Row;
use tag_blocks::Kind;

// The end of a line: the offset of a thing, and its length, in bytes.
fn set_extent(line: &mut Line, at: u64, size: u64)
    ensures text { line.new ≡ extent at size }
    ensures few { length line.new ≤ 64 }
{
    line.clear();
    line.put_counted(size, b" bytes\n");
    line.put_counted(at, b": ");
    line.put(b" at ");
}

fn kind_name<'a>(kind: Kind) -> &'a [u8]
    ensures name { result.now ≡ kind_name kind }
    ensures few { length result.now ≤ 8 }
{
    match kind {
        Kind::Id3v2 => b"ID3v2",
        Kind::Id3v1 => b"ID3v1",
        Kind::Ape => b"APEv2",
    }
}

/// What a frame's line has in common with the line of the frame before: the leading digits of its
/// number and of its offset.
#[derive(Drop)]
pub(crate) struct Common {
    number: LeadingDigits,
    offset: LeadingDigits,
}

impl Common {
    /// Before the first frame.
    pub(crate) fn new() -> Common {
        Common {
            number: LeadingDigits::of(1),
            offset: LeadingDigits::of(1),
        }
    }
}

// The line of a frame: its number, its offset, its bit rate in kbit/s, its main_data_begin in
// bytes, how many bits its main data are, and whether it is lost.
#[inline(always)]
fn set_frame_line(line: &mut Line, common: &mut Common, number: u64, row: &Row)
    ensures { line.new ≡ frame_line number row.now }
{
    let front = row.front();
    let class = front.class();
    let slot = front.slot();
    let extent = front.extent_in(class);
    line.clear();
    line.put(b"\n");
    if row.lost() {
        line.put(b", lost");
    }
    line.put_number(u64::from(extent.bits));
    line.put_from(1, b"_, bits ");
    line.put_number(u64::from(extent.begin));
    if slot.padding {
        // The compiler sees that a copy doesn't overlap the line.
        let text = *b"_ padded, begin ";
        line.put_from(1, &text);
    } else {
        line.put(b", begin ");
    }
    put_rate(line, class, slot);
    common.offset.put_by_myriads(u64::from(row.offset()), line);
    line.put(b" at ");
    common.number.put_by_hundreds(number, line);
    line.put_from(2, b"__frame ");
}

// Sets the text to the line of a thing.
#[tactic(auto, unfolding(crate::specs::Listing::thing_line))]
fn set_line(line: &mut Line, common: &mut Common, thing: &Thing)
    ensures { line.new ≡ thing_line thing.now }
{
    match thing {
        Thing::Block(piece) => {
            set_extent(line, piece.offset, piece.block.length);
            line.put(kind_name(piece.block.kind));
            line.put(b"block ");
        }
        Thing::Junk(at, size) => {
            set_extent(line, *at, *size);
            line.put(b"junk");
        }
        Thing::FirstHead(at, header) => {
            set_extent(line, *at, u64::from(header.length()));
            line.put(b"head");
        }
        Thing::Frame(number, row) => set_frame_line(line, common, *number, row),
    }
}

// As `set_next_line`. It is a function of its own, since otherwise the compiler would make room for
// a thing of each kind at every frame.
#[inline(never)]
fn set_other_line(line: &mut Line, common: &mut Common, things: &mut Things) -> bool
    ensures line { result ≡ true
        → IsNextLine (things_left things.old) (things_left things.new) line.new }
    ensures none { result ≡ false → things_left things.old ≡ [] }
{
    match things.next() {
        Some(thing) => {
            set_line(line, common, &thing);
            true
        }
        None => false,
    }
}

/// Sets the text to the line of the next thing; false, with any text, once all were met.
#[tactic(auto, unfolding(crate::specs::Listing::thing_line))]
#[inline]
pub(crate) fn set_next_line(line: &mut Line, common: &mut Common, things: &mut Things) -> bool
    ensures line { result ≡ true
        → IsNextLine (things_left things.old) (things_left things.new) line.new }
    ensures none { result ≡ false → things_left things.old ≡ [] }
{
    match things.next_frame() {
        Some((number, row)) => {
            set_frame_line(line, common, number, row);
            true
        }
        None => set_other_line(line, common, things),
    }
}

fn version_name<'a>(version: Version) -> &'a [u8]
    ensures name { result.now ≡ version_name version }
    ensures few { length result.now ≤ 8 }
{
    match version {
        Version::One => b"MPEG-1",
        Version::Two => b"MPEG-2",
        Version::TwoFive => b"MPEG-2.5",
    }
}

// The end of a line: a time in hundredths of a second, written as M.SS.HH.
fn set_time(line: &mut Line, time: u128)
    ensures text { line.new ≡ time_text time ++ codes "\n" }
    ensures few { length line.new ≤ 64 }
{
    line.clear();
    line.put(b"\n");
    line.put_pair((time % 100) as u32);
    line.put(b".");
    line.put_pair((time / 100 % 60) as u32);
    line.put(b".");
    line.put(Buffer::new().format(time / 6000).as_bytes());
}

/// Sets the text to the end of a line: how long `count` frames of this class sound.
pub(crate) fn set_duration(line: &mut Line, class: Class, count: u64)
    ensures text { line.new ≡ time_text (hundredths class count) ++ codes "\n" }
    ensures few { length line.new ≤ 64 }
{
    let samples = u128::from(count) * u128::from(class.samples());
    set_time(line, samples * 100 / u128::from(class.frequency()));
}

/// Puts what the frames of a class share before a line: version, sampling frequency and number of channels.
pub(crate) fn put_class(line: &mut Line, class: Class)
    requires { length line.old + 64 ≤ 192 }
    ensures class { line.new ≡ class_text class ++ line.old }
    ensures few { length line.new ≤ length line.old + 64 }
{
    line.put_counted(u64::from(class.channels), b" channels");
    line.put_counted(u64::from(class.frequency()), b" Hz, ");
    line.put(b", ");
    line.put(version_name(class.version));
}

/// Sets the text to the summary of `count` frames of this class.
#[tactic(auto, unfolding(crate::specs::Listing::summary))]
pub(crate) fn set_summary(line: &mut Line, class: Class, count: u64)
    ensures { line.new ≡ summary class count }
{
    set_duration(line, class, count);
    line.put(b", ");
    put_class(line, class);
    line.put_counted(count, b" frames, ");
}
