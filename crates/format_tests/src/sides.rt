//! Side information by the tables of the standard, ISO/IEC 11172-3 and 13818-3, 2.4.1.7, and check words.
use frame_header::{Class, Header, Version};
use side_info::{
    FrameFront, Granule, NO_GRANULE as NONE, Side, check_word, check_word_of_bytes, put_gains,
};
use std::alloc::{AllocError, Global};
use std::process::Abort;
use std::test::Fail;
use test_files::table;

// The side bytes of an MPEG-1 frame of two channels: four granules of 8 bits, with the gains 100, 101, 255 and 90.
const BEFORE: [u8; 32] = *b"\
    \x00\x00\x00\x08\x00\x32\x00\x00\x00\x00\x01\x00\x06\x50\x00\x00\
    \x00\x00\x20\x01\xfe\x00\x00\x00\x00\x04\x00\x16\x80\x00\x00\x00";

// The same with the gains 101, 102, 0 and 91.
const AFTER: [u8; 32] = *b"\
    \x00\x00\x00\x08\x00\x32\x80\x00\x00\x00\x01\x00\x06\x60\x00\x00\
    \x00\x00\x20\x00\x00\x00\x00\x00\x00\x04\x00\x16\xc0\x00\x00\x00";

// A granule by its fields, in the order in which they are in the side information.
macro_rules! granule {
    ($length:literal, $big_values:literal, $gain:literal, $compress:literal, $switching:literal, $detail:literal, $preflag:literal, $scale:literal, $table:literal) => {
        Granule {
            part2_3_length: $length, big_values: $big_values, global_gain: $gain, scalefac_compress: $compress, window_switching: $switching,
            detail: $detail, preflag: $preflag, scalefac_scale: $scale, count1table_select: $table,
        }
    };
}

// Granules whose fields all differ; the first two with preflag 1 and 0, as MPEG-1 has it.
const FIRST: Granule = granule!(2741, 288, 210, 13, true, 0x2a_aaaa, true, false, true);

const SECOND: Granule = granule!(1365, 17, 97, 6, false, 0x15_5555, false, true, false);

const FULL: Granule = granule!(4095, 511, 255, 15, true, 0x3f_ffff, true, true, true);

const SMALL: Granule = granule!(1, 2, 3, 4, false, 5, false, false, true);

// A granule of 8 bits of main data with this gain.
fn granule(global_gain: u8) -> Granule {
    Granule {
        part2_3_length: 8,
        global_gain,
        ..NONE
    }
}

fn side(gains: [u8; 4]) -> Side {
    let first = [granule(gains[0]), granule(gains[1])];
    let second = [granule(gains[2]), granule(gains[3])];
    side_of(0, 0, [0, 0], [first, second])
}

fn side_of(begin: u16, private_bits: u8, scfsi: [u8; 2], granules: [[Granule; 2]; 2]) -> Side {
    Side {
        main_data_begin: begin,
        private_bits,
        scfsi,
        granules,
    }
}

// Whether the side information is written as these bytes.
fn is_written(class: Class, side: &Side, bytes: &[u8]) -> bool {
    if !side.fits(class) || bytes.len() != class.side_size() as usize {
        return false;
    }
    let mut room = [0; 32];
    let part = &mut room[..bytes.len()];
    side.write(class, part);
    &*part == bytes
}

// Whether these bytes are read as this side information, and it is written as these bytes.
fn is_shape(version: Version, channels: u8, bytes: &[u8], wanted: &Side) -> bool {
    if channels != 1 && channels != 2 {
        return false;
    }
    let class = Class {
        version,
        frequency_index: 0,
        channels,
    };
    if bytes.len() != class.side_size() as usize {
        return false;
    }
    let read = Side::read(class, bytes);
    read == *wanted && is_written(class, &read, bytes)
}

static MPEG_1_OF_ONE: &[u8] = b"\
    \xaa\xd6\xaa\xd6\x41\xa5\xba\xaa\xaa\xaa\xaa\x84\x58\x58\xaa\xaa\
    \xaa";

static MPEG_1_OF_TWO: &[u8] = b"\
    \xaa\xda\x6a\xb5\x90\x69\x6e\xaa\xaa\xaa\xaa\xa1\x16\x16\x2a\xaa\
    \xaa\xbf\xff\xff\xff\xff\xff\xff\xf8\x00\x80\x80\xd0\x00\x00\x29";

#[test]
fn mpeg_1_with_one_channel(rt: HostRuntime) {
    let wanted = side_of(341, 21, [10, 0], [[FIRST, NONE], [SECOND, NONE]]);
    assert!(rt; is_shape(Version::One, 1, MPEG_1_OF_ONE, &wanted));
}

#[test]
fn mpeg_1_with_two_channels(rt: HostRuntime) {
    let wanted = side_of(341, 5, [10, 6], [[FIRST, SECOND], [FULL, SMALL]]);
    assert!(rt; is_shape(Version::One, 2, MPEG_1_OF_TWO, &wanted));
}

// In MPEG-2 and MPEG-2.5: 9 bits of scalefac_compress, and no preflag.
const LOWER_FIRST: Granule = Granule {
    scalefac_compress: 421,
    preflag: false,
    ..FIRST
};

const LOWER_SECOND: Granule = Granule {
    scalefac_compress: 90,
    ..SECOND
};

static LOWER_OF_ONE: &[u8] = b"\xab\xd5\xac\x83\x4b\x4b\xaa\xaa\xa9";

static LOWER_OF_TWO: &[u8] = b"\
    \xab\xaa\xd6\x41\xa5\xa5\xd5\x55\x54\xaa\xa8\x45\x84\xb4\x55\x55\
    \x56";

#[test]
fn lower_versions_with_one_channel(rt: HostRuntime) {
    let wanted = side_of(171, 1, [0, 0], [[LOWER_FIRST, NONE], [NONE, NONE]]);
    assert!(rt; is_shape(Version::Two, 1, LOWER_OF_ONE, &wanted));
    assert!(rt; is_shape(Version::TwoFive, 1, LOWER_OF_ONE, &wanted));
}

#[test]
fn lower_versions_with_two_channels(rt: HostRuntime) {
    let wanted = side_of(171, 2, [0, 0], [[LOWER_FIRST, LOWER_SECOND], [NONE, NONE]]);
    assert!(rt; is_shape(Version::Two, 2, LOWER_OF_TWO, &wanted));
    assert!(rt; is_shape(Version::TwoFive, 2, LOWER_OF_TWO, &wanted));
}

#[test]
fn lengths(rt: HostRuntime) {
    let side = side([100, 101, 255, 90]);
    assert!(rt; side.bits() == 32 && side.payload_bytes() == 4);
    assert!(rt; side.with_begin(511).main_data_begin == 511);
    assert!(rt; Side::empty().bits() == 0);
}

#[test]
fn other_gains(rt: HostRuntime) {
    const STEREO: Class = Class {
        version: Version::One,
        frequency_index: 0,
        channels: 2,
    };
    assert!(rt; is_shape(Version::One, 2, &BEFORE, &side([100, 101, 255, 90])));
    assert!(rt; is_written(STEREO, &side([101, 102, 0, 91]), &AFTER));
}

// One granule of MPEG-2 of 8 bits in one channel, with the gains 100 and 101.
const MONO_BEFORE: [u8; 9] = *b"\x00\x00\x40\x01\x90\x00\x00\x00\x00";

const MONO_AFTER: [u8; 9] = *b"\x00\x00\x40\x01\x94\x00\x00\x00\x00";

const MPEG_2_MONO: Class = Class {
    version: Version::Two,
    frequency_index: 1,
    channels: 1,
};

// A protected MPEG-2 header of one channel at 24,000 Hz.
const MONO_HEADER: [u8; 4] = [0xff, 0xf2, 0x14, 0xc0];

/// Side bytes after that header, and their check word.
struct Checked {
    bytes: [u8; 9],
    word: u16,
}

static WORDS: [Checked; 3] = table! {
    Checked { bytes, word }
    ([0; 9], 0xeed2)
    (MONO_BEFORE, 0xe952)
    (MONO_AFTER, 0x68b1)
};

#[tactic(auto, unfolding(frame_header::specs::Tables::side_size_of))]
fn has_word(header: &Header, row: &Checked) -> bool {
    let side = Side::read(MPEG_2_MONO, &row.bytes);
    if !side.fits(header.class()) {
        return false;
    }
    check_word(header, &side) == row.word
        && check_word_of_bytes(&MONO_HEADER, &row.bytes) == row.word
}

#[test]
fn check_words(rt: HostRuntime) -> Result<(), Fail> {
    assert!(rt; check_word_of_bytes(b"--12", b"3456789") == 0xaee7);
    let header = Header::read(MONO_HEADER)?;
    for row in &WORDS {
        assert!(rt; has_word(&header, row), "word {}", row.word);
    }
    Ok(())
}

// A frame with this front and side information, and with a 7 in each byte after them.
fn frame_of(
    alloc: Global,
    front: &[u8],
    side: &[u8],
    length: usize,
) -> Result<Vec<u8>, AllocError> {
    let mut frame = Vec::new(alloc);
    frame.extend_from_slice(front)?;
    frame.extend_from_slice(side)?;
    frame.resize(length, 7)?;
    Ok(frame)
}

// Whether a frame with this header and the old side information becomes the wanted one with the gains
// of the new.
fn becomes(header: &Header, old: &Side, new: &Side, frame: &mut [u8], after: &[u8]) -> bool {
    let class = header.class();
    let room = header.length() - header.area();
    if room as usize > frame.len() || !old.fits(class) {
        return false;
    }
    put_gains(&FrameFront::new(header, old), class, new, frame);
    &*frame == after
}

#[test]
fn gains_where_they_stand(rt: HostRuntime) -> Result<(), Fail> {
    const FRONT: [u8; 4] = [0xff, 0xfb, 0x10, 0x00];
    let header = Header::read(FRONT)?;
    let old = side([100, 101, 255, 90]);
    let mut frame = frame_of(rt.alloc(), &FRONT, &BEFORE, 104)?;
    let after = frame_of(rt.alloc(), &FRONT, &AFTER, 104)?;
    assert!(rt; becomes(&header, &old, &side([101, 102, 0, 91]), &mut frame, &after));
    Ok(())
}

#[tactic(auto, unfolding(frame_header::specs::Tables::side_size_of))]
fn mono_side(gain: u8) -> Side {
    let mut side = Side::read(MPEG_2_MONO, &MONO_BEFORE);
    side.granules[0][0].global_gain = gain;
    side
}

#[test]
fn gains_behind_a_check_word(rt: HostRuntime) -> Result<(), Fail> {
    let header = Header::read(MONO_HEADER)?;
    let old = mono_side(100);
    let mut frame = frame_of(rt.alloc(), b"\xff\xf2\x14\xc0\xe9\x52", &MONO_BEFORE, 24)?;
    let after = frame_of(rt.alloc(), b"\xff\xf2\x14\xc0\x68\xb1", &MONO_AFTER, 24)?;
    assert!(rt; becomes(&header, &old, &mono_side(101), &mut frame, &after));
    Ok(())
}
