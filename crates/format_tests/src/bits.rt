//! Numbers among the bits of a few bytes.

use bit_fields::{Bits, number_at, put, put_byte};
use std::process::Abort;
use test_files::table;

/// The first eight side bytes of an MPEG-1 frame of two channels, ISO/IEC 11172-3, 2.4.1.7.
static SIDE: [u8; 8] = [0x00, 0x00, 0x00, 0x08, 0x00, 0x32, 0x00, 0x00];

/// A field that is taken: its width in bits, its value, and the place of the bit after it.
struct Taken {
    what: &'static str,
    width: u32,
    value: Option<u32>,
    place: usize,
}

static TAKEN: [Taken; 6] = table! {
    Taken { what, width, value, place }
    ("begin, private bits and scfsi", 20, Some(0), 20)
    ("part2_3_length", 12, Some(8), 32)
    ("big_values", 9, Some(0), 41)
    ("global_gain", 8, Some(100), 49)
    ("more than there are", 16, None, 49)
    ("no bits", 0, Some(0), 49)
};

fn is_taken(bits: &mut Bits, field: &Taken) -> bool {
    field.width <= 32 && bits.take(field.width) == field.value && bits.place() == field.place
}

#[test]
fn takes_the_first_fields_of_a_side_information(rt: HostRuntime) {
    let mut bits = Bits::new(&SIDE);
    for field in &TAKEN {
        assert!(rt; is_taken(&mut bits, field), "{}", field.what);
    }
    assert!(rt; bits.left() == 15);
}

#[test]
fn reads_a_gain_among_few_bytes(rt: HostRuntime) {
    // By reading eight bytes, and by reading the few that there are.
    assert!(rt; number_at(&SIDE, 41, 8) == 100);
    assert!(rt; number_at(&SIDE[5..], 1, 8) == 100);
    assert!(rt; number_at(&SIDE[3..7], 17, 8) == 100);
    assert!(rt; number_at(b"\0\0\0\0\0\0\x12\x34\x5f", 52, 20) == 0x2345f);
}

// Whether a byte that is put among these bytes gives the wanted ones.
fn is_put(bytes: &mut [u8], at: usize, byte: u8, wanted: &[u8]) -> bool {
    if at >= 1000 || bytes.len() >= 1000 || at + 16 > 8 * bytes.len() {
        return false;
    }
    put_byte(bytes, at, byte);
    &*bytes == wanted
}

#[test]
fn puts_a_gain(rt: HostRuntime) {
    let mut bytes = SIDE;
    put(&mut bytes, 41, 8, 101);
    assert!(rt; bytes == *b"\0\0\0\x08\0\x32\x80\0");
    assert!(rt; is_put(&mut bytes, 41, 100, &SIDE));
}

#[test]
fn puts_among_few_bytes(rt: HostRuntime) {
    let mut few = [0xff; 3];
    put(&mut few, 5, 17, 0);
    assert!(rt; few == [0xf8, 0x00, 0x03]);
    assert!(rt; is_put(&mut few, 8, 0xab, &[0xf8, 0xab, 0x03]));
}

#[test]
fn puts_near_the_end_of_more_than_eight_bytes(rt: HostRuntime) {
    let mut more = [0xff; 10];
    put(&mut more, 47, 32, 0x8000_0001);
    assert!(rt; more == *b"\xff\xff\xff\xff\xff\xff\0\0\0\x03");
}
