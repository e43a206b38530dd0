//! What is before the area of a frame, as the bytes of the file.
ghost use Rattle.std.specs.Prelude.{◌≡◌, ◌==◌, ◌↔◌, if◌then◌else◌, ◌+◌, ◌/◌, ◌^◌, ◌<◌, ◌≤◌, ◌++◌, IsTrue, Ok, length, take, drop};
ghost use Rattle.bit_fields.specs.Bits.{bits, bits_of, bytes, AreBytes};
ghost use Rattle.bit_fields.specs.Groups.{group};
ghost use Rattle.frame_header.specs.declared.version.Version.TheVariants.{One, Two, TwoFive};
ghost use Rattle.frame_header.specs.Fields.{IsHeader};
ghost use Rattle.frame_header.specs.HeaderBits.{header_bits};
ghost use Rattle.side_info.specs.CheckWord.{check_word_of};
ghost use Rattle.frame_header.specs.Tables.{class_of, side_size_of, overhead_of};
ghost use Rattle.frame_header.specs.Reading.{header_at, header_fields};
ghost use Rattle.side_info.specs.Side.{no_side, side_at, side_bits, front_width, payload_bytes, SideFits};
ghost use Rattle.side_info.specs.Frame.{side_in, side_part, frame_front_bytes};
ghost use Rattle.side_info.specs.FrameFields.{header_like, with_begin};
ghost use Rattle.side_info.specs.FrontBytes.{padded_side, begin_width, AreHeadersAlike, AreInHeader, AreZerosFor, HasHeaderPart, IsExtent, IsFrontOf, IsRoomOf, PutsSlot};
ghost use Rattle.frame_header.specs.Limits.{most_front};

use crate::crc::check_word_of_bytes;
use crate::frame::{HEADER_SIZE, PROTECTED_SIZE, put_crc};
use crate::side::Side;
use bit_fields::{number_at, put};
use frame_header::{Class, Header, Slot, Version};
use std::marker::Model;

/// The greatest length of side information in bytes, which MPEG-1 has with two channels.
const MOST: usize = 32;

/// The header and the side information of a frame, as the bytes of the file: 36, whatever the class. In contracts it
/// is their fields.
#[derive(Clone, Copy, Debug, PartialEq, Eq)]
pub struct FrameFront {
    header: [u8; 4],
    // As many bytes as the class has, with zeros after them.
    side: [u8; 32],
}

impl Model for FrameFront {
    ghost use Rattle.side_info.specs.FrameFields.{FrameFields};

    ghost Value = { FrameFields };

    ghost use Rattle.side_info.specs.FrontBytes.{front_view, front_inside, AreFrontBytes};

    ghost view = { front_view };

    ghost invariant = { AreFrontBytes };

    ghost inverse = { front_inside };

    ghost inverse_ok = { λ a written. written.same };
}

/// Where the main data of a frame begin, and how long they are.
#[derive(Clone, Copy, Debug, PartialEq, Eq)]
pub struct Extent {
    /// main_data_begin: how many bytes before the frame's own area they begin, counted over areas alone.
    pub begin: u16,
    /// The sum of all part2_3_length.
    pub bits: u32,
}

impl Extent {
    /// The length of the main data in bytes, rounded up.
    // A shift of a 64-bit sum, which can't wrap; `div_ceil` would look at the remainder.
    #[inline(always)]
    pub fn bytes(&self) -> u32
        ensures { result ≡ (self.now.bits + 7) / 8 }
    {
        ((u64::from(self.bits) + 7) / 8) as u32
    }
}

/// Writes these bytes over the first of 32 zeros.
#[inline(never)]
fn fill_short(part: &[u8], room: &mut [u8; 32])
    requires { AreZerosFor part.now room.old }
    ensures { room.new ≡ padded_side part.now }
{
    room[..part.len()].copy_from_slice(part);
}

/// The same, but faster for 32 bytes.
// In place, since the compiler copies a returned array byte by byte here. Copying is fastest if the number of bytes
// is a constant.
#[inline(always)]
fn fill(part: &[u8], room: &mut [u8; 32])
    requires { AreZerosFor part.now room.old }
    ensures { room.new ≡ padded_side part.now }
{
    if part.len() == MOST {
        room.copy_from_slice(part);
    } else {
        fill_short(part, room);
    }
}

/// The bytes of side information of this class from byte `offset` of a frame on, with zeros after them.
#[inline(always)]
fn side_room(class: Class, offset: usize, frame: &[u8]) -> [u8; 32]
    requires { offset + side_size_of class ≤ length frame.now }
    ensures { result ≡ padded_side (take (side_size_of class) (drop offset frame.now)) }
{
    let size = class.side_size() as usize;
    let mut room = [0; MOST];
    fill(&frame[offset..offset + size], &mut room);
    room
}

/// Writes a value over the first `width` bits of side information. It reads and writes only two bytes, where `put`
/// would read and write eight if there are as many.
#[inline(always)]
fn put_first(width: u32, value: u16, part: &mut [u8])
    requires few { width ≤ 16 }
    requires fits { value < 2 ^ width }
    requires room { 2 ≤ length part.old }
    ensures bits { bits part.new ≡ bits_of width value ++ drop width (bits part.old) }
    ensures octets { AreBytes part.new }
{
    put(&mut part[..2], 0, width, u32::from(value));
}

/// Writes main_data_begin over the first bits of side information: 9 bits in MPEG-1, 8 in MPEG-2 and MPEG-2.5.
#[inline(always)]
fn put_begin(begin: u16, version: Version, part: &mut [u8])
    requires fits { begin < 2 ^ begin_width version }
    requires room { 2 ≤ length part.old }
    ensures bits { bits part.new ≡ bits_of (begin_width version) begin
        ++ drop (begin_width version) (bits part.old) }
    ensures octets { AreBytes part.new }
{
    match version {
        Version::One => put_first(9, begin, part),
        Version::Two | Version::TwoFive => put_first(8, begin, part),
    }
}

/// main_data_begin, which is the first bits of side information: 9 bits in MPEG-1, 8 in MPEG-2 and MPEG-2.5.
#[inline(always)]
fn begin_at(version: Version, part: &[u8]) -> u16
    requires room { 2 ≤ length part.now }
    requires short { length part.now ≤ 2 ^ 28 }
    ensures { result ≡ group 0 (begin_width version) (bits part.now) }
{
    match version {
        Version::One => number_at(part, 0, 9) as u16,
        Version::Two | Version::TwoFive => number_at(part, 0, 8) as u16,
    }
}

/// Writes these bytes into a frame, from byte `offset` on.
#[inline(always)]
fn put_bytes(part: &[u8], offset: usize, frame: &mut [u8])
    requires { offset + length part.now ≤ length frame.old }
    ensures { frame.new ≡ take offset frame.old ++ (part.now ++ drop
        (offset + length part.now) frame.old) }
{
    frame[offset..offset + part.len()].copy_from_slice(part);
}

/// The first four bytes of a frame.
#[inline(always)]
fn first_four(frame: &[u8]) -> [u8; 4]
    requires { 4 ≤ length frame.now }
    ensures four { result ≡ take 4 frame.now }
    ensures octets { AreBytes result }
{
    [frame[0], frame[1], frame[2], frame[3]]
}

/// The bytes of the side information of the frame with this header, which is of this class, with zeros after them.
#[inline(always)]
#[tactic(auto, unfolding(crate::specs::Frame::side_part, frame_header::specs::Tables::overhead_of))]
fn room_of_frame(class: Class, header: &Header, frame: &[u8]) -> [u8; 32]
    requires class { class ≡ class_of header.now }
    requires room { overhead_of (class_of header.now) header.now.protected ≤ length frame.now }
    ensures room { result ≡ padded_side (side_part header.now frame.now) }
    ensures octets { AreBytes (side_part header.now frame.now) }
{
    let offset = if header.protected {
        PROTECTED_SIZE
    } else {
        HEADER_SIZE
    };
    side_room(class, offset, frame)
}

/// Writes side information over all the bytes.
fn write_side(class: Class, side: &Side, room: &mut [u8])
    requires fits { SideFits class side.now }
    requires size { length room.old ≡ side_size_of class }
    ensures written { room.new ≡ bytes (side_bits class side.now) }
    ensures back { side_at class (bits room.new) ≡ side.now }
{
    side.write(class, room);
}

/// The bytes of side information, with zeros after them.
fn room_of(class: Class, side: &Side) -> [u8; 32]
    requires { SideFits class side.now }
    ensures { IsRoomOf class side.now result }
{
    let mut room = [0; MOST];
    write_side(class, side, &mut room[..class.side_size() as usize]);
    room
}

/// Writes bit rate index and padding bit into a header.
#[inline(always)]
fn put_slot(slot: Slot, four: &mut [u8])
    requires { length four.old ≡ 4 }
    ensures { PutsSlot slot four.old four.new }
{
    put(four, 16, 4, u32::from(slot.rate_index));
    put(four, 22, 1, u32::from(slot.padding));
}

/// The version, by the twelfth bit of a header and ID (2.4.1.3 and 2.4.2.3).
#[inline(always)]
fn version_of(bits: u32) -> Version
    ensures { result ≡ (if bits == 3 then One else (if bits == 2 then Two else TwoFive)) }
{
    match bits {
        3 => Version::One,
        2 => Version::Two,
        _ => Version::TwoFive,
    }
}

/// How many channels a mode has (2.4.2.3): one in single_channel, otherwise two.
#[inline(always)]
fn channels_of(mode: u32) -> u8
    ensures { result ≡ (if mode == 3 then 1 else 2) }
{
    if mode == 3 { 1 } else { 2 }
}

/// The number of a group of bits of a header, counted from the most significant.
#[inline(always)]
fn group_of(word: u32, at: u32, n: u32) -> u32
    requires { AreInHeader at n }
    ensures { result ≡ group at n (bits_of 32 word) }
{
    (word >> (32 - at - n)) % (1 << n)
}

/// Whether a group of bits is the same in two headers.
#[inline(always)]
fn same_group(word: u32, other: u32, at: u32, n: u32) -> bool
    requires { AreInHeader at n }
    ensures { IsTrue result ↔ (group at n (bits_of 32 word) ≡ group at n (bits_of 32 other)) }
{
    group_of(word, at, n) == group_of(other, at, n)
}

/// Whether the bits of two headers are the same except bitrate_index, padding_bit and mode_extension, the sync bits
/// and the layer.
// Without branches, the compiler combines the eight tests into one.
#[inline(always)]
fn are_alike(word: u32, other: u32) -> bool
    ensures { IsTrue result ↔ AreHeadersAlike (bits_of 32 word) (bits_of 32 other) }
{
    let class = same_group(word, other, 11, 2) & same_group(word, other, 20, 2);
    let mode = same_group(word, other, 24, 2) & same_group(word, other, 15, 1);
    let marks = same_group(word, other, 23, 1) & same_group(word, other, 28, 1);
    let rest = same_group(word, other, 29, 1) & same_group(word, other, 30, 2);
    class & mode & marks & rest
}

impl FrameFront {
    ghost use Rattle.side_info.specs.FrameFields.{FrameFields};

    /// The front of the frame with which the bytes begin. More bytes may follow the frame.
    #[inline(always)]
    pub fn read(header: &Header, frame: &[u8]) -> FrameFront
        requires heads { header_at (take 4 frame.now) ≡ Ok header.now }
        requires room { overhead_of (class_of header.now) header.now.protected ≤ length frame.now }
        ensures { IsFrontOf header.now frame.now result }
    {
        FrameFront::read_in(header.class(), header, frame)
    }

    /// The same, where the class of the header is known.
    #[inline(always)]
    pub fn read_in(class: Class, header: &Header, frame: &[u8]) -> FrameFront
        requires class { class ≡ class_of header.now }
        requires heads { header_at (take 4 frame.now) ≡ Ok header.now }
        requires room { overhead_of (class_of header.now) header.now.protected ≤ length frame.now }
        ensures { IsFrontOf header.now frame.now result }
    {
        FrameFront {
            header: first_four(frame),
            side: room_of_frame(class, header, frame),
        }
    }

    /// The front of a frame with this header and this side information.
    pub fn new(header: &Header, side: &Side) -> FrameFront
        requires { SideFits (class_of header.now) side.now }
        ensures { result ≡ record { header = header.now; side = side.now } }
    {
        FrameFront {
            header: header.bytes(),
            side: room_of(header.class(), side),
        }
    }

    /// Makes the side information all 0, as in a frame without main data.
    #[inline(never)]
    pub fn empty_side(&mut self)
        ensures { self.new ≡ record self.old { side = no_side } }
    {
        *self = FrameFront::new(&self.header(), &Side::empty());
    }

    /// The header.
    #[inline(always)]
    pub fn header(&self) -> Header
        ensures { result ≡ self.now.header }
    {
        Header::read(self.header).unwrap()
    }

    /// What decides the frame's length within its class.
    // Read on its own, since `header` checks all bits of the four bytes again.
    #[inline(always)]
    pub fn slot(&self) -> Slot
        ensures { result ≡ self.now.header.slot }
    {
        Slot {
            rate_index: number_at(&self.header, 16, 4) as u8,
            padding: number_at(&self.header, 22, 1) == 1,
        }
    }

    /// Version, frequency and number of channels.
    #[inline(always)]
    pub fn class(&self) -> Class
        ensures class { result ≡ class_of self.now.header }
        ensures known { IsHeader self.now.header }
    {
        Class {
            version: version_of(number_at(&self.header, 11, 2)),
            frequency_index: number_at(&self.header, 20, 2) as u8,
            channels: channels_of(number_at(&self.header, 24, 2)),
        }
    }

    /// Whether a check word follows the header.
    #[inline(always)]
    pub fn protected(&self) -> bool
        ensures { result ≡ self.now.header.protected }
    {
        number_at(&self.header, 15, 1) == 0
    }

    /// mode_extension, from 0 to 3 (2.4.1.3 and 2.4.2.3).
    #[inline(always)]
    pub fn mode_extension(&self) -> u8
        ensures value { result ≡ self.now.header.mode_extension }
        ensures most { result ≤ 3 }
    {
        number_at(&self.header, 26, 2) as u8
    }

    // The header as one number, its first bit the most significant.
    #[inline(always)]
    fn word(&self) -> u32
        ensures bits { bits_of 32 result ≡ header_bits self.now.header }
        ensures fields { header_fields (bits_of 32 result) ≡ self.now.header }
    {
        u32::from_be_bytes(self.header)
    }

    /// Whether the header has the same fields as another except slot and mode extension, the only ones that change
    /// from frame to frame in most streams.
    #[inline(always)]
    pub fn is_like(&self, other: &FrameFront) -> bool
        ensures { IsTrue result ↔ (self.now.header ≡ header_like other.now.header self.now.header) }
    {
        are_alike(self.word(), other.word())
    }

    /// The side information.
    // Inlined, so that fields that the caller doesn't use aren't read.
    #[inline(always)]
    pub fn side(&self) -> Side
        ensures side { result ≡ self.now.side }
        ensures fits { SideFits (class_of self.now.header) self.now.side }
    {
        self.side_in(self.class())
    }

    /// The side information of a frame whose class is known, since all frames of a stream have the same.
    #[inline(always)]
    pub fn side_in(&self, class: Class) -> Side
        requires { class ≡ class_of self.now.header }
        ensures side { result ≡ self.now.side }
        ensures fits { SideFits class self.now.side }
    {
        Side::read(class, &self.side[..class.side_size() as usize])
    }

    /// Where the main data begin, and how long they are.
    #[inline(always)]
    pub fn extent(&self) -> Extent
        ensures { IsExtent self.now.side result }
    {
        self.extent_in(self.class())
    }

    /// The same, where the class of the header is known.
    // In MPEG-1 with two channels, the most common class, the compiler knows the offsets of the fields.
    #[inline(always)]
    pub fn extent_in(&self, class: Class) -> Extent
        requires { class ≡ class_of self.now.header }
        ensures { IsExtent self.now.side result }
    {
        match (class.version, class.channels) {
            (Version::One, 2) => self.extent_by(class.known_stereo()),
            _ => self.extent_by(class),
        }
    }

    // The same, in any class.
    #[inline(always)]
    fn extent_by(&self, class: Class) -> Extent
        requires { class ≡ class_of self.now.header }
        ensures { IsExtent self.now.side result }
    {
        let side = self.side_in(class);
        Extent {
            begin: side.main_data_begin,
            bits: side.bits(),
        }
    }

    /// The length of the main data in bytes, rounded up.
    #[inline(always)]
    #[tactic(auto, unfolding(crate::specs::Side::payload_bytes))]
    pub fn payload_bytes(&self) -> u32
        ensures { result ≡ payload_bytes self.now.side }
    {
        self.extent().bytes()
    }

    /// Writes the slot into the header; everything else stays.
    #[inline(always)]
    pub fn set_slot(&mut self, slot: Slot)
        ensures { self.new ≡ record self.old { header = record self.old.header { slot = slot } } }
    {
        put_slot(slot, &mut self.header);
    }

    /// main_data_begin, where the class of the header is known.
    #[inline(always)]
    pub fn begin_in(&self, class: Class) -> u16
        requires { class ≡ class_of self.now.header }
        ensures begin { result ≡ self.now.side.main_data_begin }
        ensures fits { SideFits (class_of self.now.header) self.now.side }
    {
        begin_at(class.version, &self.side[..class.side_size() as usize])
    }

    /// Writes main_data_begin; everything else stays.
    #[inline(always)]
    pub fn set_begin(&mut self, begin: u16)
        requires { begin < 2 ^ front_width (class_of self.old.header) 0 }
        ensures { self.new ≡ with_begin self.old begin }
    {
        let class = self.class();
        let size = class.side_size() as usize;
        put_begin(begin, class.version, &mut self.side[..size]);
    }

    // The four bytes of the header.
    #[inline(always)]
    fn four(&self) -> [u8; 4]
        ensures { result ≡ bytes (header_bits self.now.header) }
    {
        self.header
    }

    /// The check word that is right for this header and side information.
    #[inline(always)]
    pub fn right_crc(&self) -> u16
        ensures { result ≡ check_word_of self.now.header self.now.side }
    {
        let size = self.class().side_size() as usize;
        check_word_of_bytes(&self.header, &self.side[..size])
    }

    // Writes the header and, for a protected frame, the check word, and returns how many bytes these are.
    #[inline(always)]
    fn put_head(&self, room: &mut [u8]) -> usize
        requires { 6 ≤ length room.old }
        ensures { HasHeaderPart self.now result room.new }
    {
        room[..HEADER_SIZE].copy_from_slice(&self.four());
        if self.protected() {
            put_crc(self.right_crc(), room);
            PROTECTED_SIZE
        } else {
            HEADER_SIZE
        }
    }

    // Writes the side information from byte `offset` on, with zeros after it up to 32 bytes.
    #[inline(always)]
    fn put_room(&self, offset: usize, room: &mut [u8])
        requires { offset + 32 ≤ length room.old }
        ensures { take (offset + side_size_of (class_of self.now.header)) room.new ≡ take offset
            room.old ++ bytes (side_bits (class_of self.now.header) self.now.side) }
    {
        put_bytes(&self.side, offset, room);
    }

    /// Writes the header, the check word of a protected frame, and the side information into the first of at least 38
    /// bytes, where the class of the header is known, and returns how many bytes these are. The bytes after them may
    /// change.
    // Copying is fastest if the number of bytes is a constant, so the zeros after the side information are copied
    // too.
    #[inline(always)]
    #[tactic(auto, unfolding(crate::specs::Frame::frame_front_bytes))]
    pub fn put_in(&self, class: Class, room: &mut [u8]) -> usize
        requires class { class ≡ class_of self.now.header }
        requires room { most_front ≤ length room.old }
        ensures size { result ≤ most_front }
        ensures front { take result room.new ≡ frame_front_bytes self.now.header self.now.side }
    {
        let offset = self.put_head(room);
        self.put_room(offset, room);
        offset + class.side_size() as usize
    }
}
