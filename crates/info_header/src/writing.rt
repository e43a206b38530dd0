//! Writes the frame that is a head.
ghost use Rattle.std.specs.Prelude.{◌≡◌, ◌+◌, ◌≤◌, ◌++◌, false, length, replicate};
ghost use Rattle.byteorder.specs.Endian.{big_bytes};
ghost use Rattle.frame_header.specs.Fields.{SlotFields, IsSlot};
ghost use Rattle.frame_header.specs.Tables.{class_of, area_of};
ghost use Rattle.info_header.specs.Info.{vbr_text, number_or_zero, table_or_zeros, info_bytes};
ghost use Rattle.info_header.specs.InfoFrame.{first_with_room, info_slot_of, info_frame};
ghost use Rattle.frame_header.specs.Limits.{most_frame_length};

use crate::fields::Info;
use arrayvec::ArrayVec;
use byteorder::{BigEndian, ByteOrder};
use frame_header::{Class, Header, Slot};

/// The length in bytes of the text, the flags, all four fields and the extension.
const FIELDS: u32 = 156;

/// The flags of all four fields.
const ALL_FLAGS: u32 = 15;

/// The slot of the Info frame: the one with the smallest area that has room for the 156 bytes of the
/// fields, in a frame without a check word.
#[tactic(auto, unfolding(crate::specs::InfoFrame::info_slot_of))]
pub fn info_slot(class: Class) -> Slot
    ensures slot { result ≡ info_slot_of class }
    ensures room { 156 ≤ area_of class result false }
    ensures least { (slot : SlotFields) → IsSlot slot → 156 ≤ area_of class slot false
        → area_of class result false ≤ area_of class slot false }
{
    // Looking inside gives the proof the invariant of the class, by which its areas ascend.
    let _ = &class.version;
    let slots = class.slots();
    first_with_room(class, slots.as_slice())
}

/// Appends bytes for which there is room.
fn append(into: &mut ArrayVec<u8, 1441>, bytes: &[u8])
    requires { length into.old.items + length bytes.now ≤ most_frame_length }
    ensures bytes { into.new.items ≡ into.old.items ++ bytes.now }
    ensures length { length into.new.items ≡ length into.old.items + length bytes.now }
{
    into.try_extend_from_slice(bytes).unwrap();
}

/// Appends a number of 32 bits, the most significant byte first.
fn append_number(into: &mut ArrayVec<u8, 1441>, number: u32)
    requires { length into.old.items + 4 ≤ most_frame_length }
    ensures bytes { into.new.items ≡ into.old.items ++ big_bytes 4 number }
    ensures length { length into.new.items ≡ length into.old.items + 4 }
{
    let mut four = [0; 4];
    BigEndian::write_u32(&mut four, number);
    append(into, &four);
}

/// Appends a field that is a number, 0 where there is none.
fn append_field(into: &mut ArrayVec<u8, 1441>, number: Option<u32>)
    requires { length into.old.items + 4 ≤ most_frame_length }
    ensures bytes { into.new.items ≡ into.old.items ++ big_bytes 4 (number_or_zero number) }
    ensures length { length into.new.items ≡ length into.old.items + 4 }
{
    match number {
        Some(number) => append_number(into, number),
        None => append_number(into, 0),
    }
}

/// Appends `count` zeros.
fn append_zeros(into: &mut ArrayVec<u8, 1441>, count: usize)
    requires { length into.old.items + count ≤ most_frame_length }
    ensures bytes { into.new.items ≡ into.old.items ++ replicate count 0 }
    ensures length { length into.new.items ≡ length into.old.items + count }
{
    append(into, &[0; 1441][..count]);
}

/// Appends the table, zeros where there is none.
fn append_table(into: &mut ArrayVec<u8, 1441>, table: &Option<[u8; 100]>)
    requires { length into.old.items + 100 ≤ most_frame_length }
    ensures bytes { into.new.items ≡ into.old.items ++ table_or_zeros table.now }
    ensures length { length into.new.items ≡ length into.old.items + 100 }
{
    match table {
        Some(table) => append(into, table),
        None => append_zeros(into, 100),
    }
}

/// Appends the text.
fn append_text(into: &mut ArrayVec<u8, 1441>, vbr: bool)
    requires { length into.old.items + 4 ≤ most_frame_length }
    ensures bytes { into.new.items ≡ into.old.items ++ vbr_text vbr }
    ensures length { length into.new.items ≡ length into.old.items + 4 }
{
    if vbr {
        append(into, b"Xing");
    } else {
        append(into, b"Info");
    }
}

/// Appends text, flags, fields and extension: 156 bytes.
#[tactic(auto, unfolding(crate::specs::Info::info_bytes))]
fn append_info(into: &mut ArrayVec<u8, 1441>, info: &Info)
    requires { length into.old.items + 156 ≤ most_frame_length }
    ensures bytes { into.new.items ≡ into.old.items ++ info_bytes info.now }
    ensures length { length into.new.items ≡ length into.old.items + 156 }
{
    append_text(into, info.vbr);
    append_number(into, ALL_FLAGS);
    append_field(into, info.frames);
    append_field(into, info.bytes);
    append_table(into, &info.table);
    append_field(into, info.quality);
    append(into, &info.extension);
}

/// Writes the whole Info frame. Its header is the header of `first`, the first frame after it, without a
/// check word and in the slot of `info_slot`. After the header come side information that is all 0, the
/// fields with all four flags set (0 for one that is `None`), and zeros up to the frame's length. It
/// replaces what `into` held.
#[tactic(auto, unfolding(crate::specs::InfoFrame::info_frame))]
pub fn write_info(first: &Header, info: &Info, into: &mut ArrayVec<u8, 1441>)
    ensures { into.new.items ≡ info_frame first.now info.now }
{
    let class = first.class();
    let slot = info_slot(class);
    into.clear();
    append(into, &first.unprotected(slot).bytes());
    append_zeros(into, class.side_size() as usize);
    append_info(into, info);
    append_zeros(into, class.length_of(slot) as usize - into.len());
}

/// The first slot whose area has room for the fields, or the largest slot of all where none has.
fn first_with_room(class: Class, slots: &[Slot]) -> Slot
    ensures { result ≡ first_with_room class slots.now }
{
    for slot in slots {
        if class.area_of(*slot, false) >= FIELDS {
            return *slot;
        }
    }
    Slot {
        rate_index: 14,
        padding: true,
    }
}
