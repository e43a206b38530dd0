//! Texts at exact places of frames. The places come from the layout of the header, the check word and the
//! side information; the lengths from the standard's tables.

mod fields;
mod files;
mod frames;

use frame_header::Header;
use info_header::head_text;
use std::alloc::{AllocError, Global};
use std::process::Abort;
use std::test::Fail;
use test_files::table;

/// A frame of zero bytes after its header, except a text.
struct Case {
    what: &'static str,
    header: [u8; 4],
    length: usize,
    text: [u8; 4],
    at: usize,
    wanted: Option<u32>,
}

static CASES: [Case; 16] = table! {
    Case { what, header, length, text, at, wanted }
    ("MPEG-1, two channels", [0xff, 0xfb, 0x90, 0x00], 417, *b"Info", 36, Some(36))
    ("MPEG-1, one channel", [0xff, 0xfb, 0x90, 0xc0], 417, *b"Xing", 21, Some(21))
    ("MPEG-2, two channels", [0xff, 0xf3, 0x40, 0x00], 104, *b"Xing", 21, Some(21))
    ("MPEG-2, one channel", [0xff, 0xf3, 0x14, 0xc0], 24, *b"Info", 13, Some(13))
    ("protected, as if there were no check word", [0xff, 0xfa, 0x90, 0x00], 417, *b"Xing", 36, Some(36))
    ("protected, behind the check word", [0xff, 0xfa, 0x90, 0x00], 417, *b"Info", 38, Some(38))
    ("protected, MPEG-2, one channel", [0xff, 0xf2, 0x14, 0xc0], 24, *b"Xing", 15, Some(15))
    ("unprotected, two bytes late", [0xff, 0xfb, 0x90, 0x00], 417, *b"Info", 38, None)
    ("one byte late", [0xff, 0xfa, 0x90, 0x00], 417, *b"Xing", 37, None)
    ("the place of two channels", [0xff, 0xfb, 0x90, 0xc0], 417, *b"Info", 36, None)
    ("another text", [0xff, 0xfb, 0x90, 0x00], 417, *b"xing", 36, None)
    ("VBRI", [0xff, 0xfb, 0x90, 0x00], 417, *b"VBRI", 36, None)
    ("no text", [0xff, 0xfb, 0x90, 0x00], 417, [0; 4], 36, None)
    // The shortest frames of two channels in MPEG-2 end within the text.
    ("a text that passes the end by a byte", [0xff, 0xf3, 0x14, 0x00], 24, *b"Xing", 21, None)
    ("a text that ends with the frame", [0xff, 0xf3, 0x16, 0x00], 25, *b"Xing", 21, Some(21))
    ("a text that passes the end behind the check word", [0xff, 0xf2, 0x16, 0x00], 25, *b"Info", 23, None)
};

/// The frame of a case; a text that passes its end is cut off there.
fn frame_of(alloc: Global, case: &Case) -> Result<Vec<u8>, AllocError> {
    let mut frame = Vec::new(alloc);
    frame.extend_from_slice(&case.header)?;
    frame.resize(case.at, 0)?;
    frame.extend_from_slice(&case.text)?;
    frame.resize(case.length, 0)?;
    Ok(frame)
}

/// Whether the case's frame has its length, and the text is at the wanted place.
fn is_found(alloc: Global, case: &Case) -> Result<bool, AllocError> {
    let frame = frame_of(alloc, case)?;
    match Header::read(case.header) {
        Ok(header) => Ok(
            header.length() as usize == frame.len() && head_text(&header, &frame) == case.wanted,
        ),
        Err(_) => Ok(false),
    }
}

#[test]
fn texts(rt: HostRuntime) -> Result<(), Fail> {
    for case in &CASES {
        assert!(rt; is_found(rt.alloc(), case)?, "{}", case.what);
    }
    Ok(())
}
