//! Main data worked out by hand. Byte n of all areas is n modulo 251, so that bytes at two places less than 251 apart differ.

use arrayvec::ArrayVec;
use reservoir::Window;
use std::alloc::AllocGlobal;
use std::process::Abort;
use std::test::Fail;
use test_files::table;

/// As many bytes of main data as the longest case has.
const MANY: usize = 4260;

/// A byte of all areas, by its place among them.
fn main_byte(place: usize) -> u8 {
    (place % 251) as u8
}

/// A window after areas of these lengths.
fn window_over<R: AllocGlobal>(rt: &R, areas: &[usize]) -> Result<Window, Fail> {
    let mut main = [0; MANY];
    for (place, byte) in main.iter_mut().enumerate() {
        *byte = main_byte(place);
    }
    let mut window = Window::new(rt.alloc())?;
    let mut rest = main.as_slice();
    for length in areas {
        window.push_area(rest.get(..*length).ok_or("no room")?);
        rest = rest.get(*length..).ok_or("no room")?;
    }
    Ok(window)
}

/// The main data of a frame.
struct Case {
    what: &'static str,
    /// The areas that were pushed, the frame's own area last.
    areas: &'static [usize],
    /// Its own area in bytes.
    area: u16,
    begin: u16,
    bits: u16,
    /// The place of the first byte among all areas, and how many there are.
    start: u16,
    length: usize,
    /// The last byte.
    last: u8,
}

static CASES: [Case; 7] = [
    Case {
        what: "across two areas",
        areas: &[381, 381],
        area: 381,
        begin: 81,
        bits: 3200,
        start: 300,
        length: 400,
        // 699 - 2 * 251
        last: 197,
    },
    Case {
        what: "as far back as may be, and the first areas are forgotten",
        areas: &[1420, 1420, 1420],
        area: 1420,
        begin: 511,
        bits: 15_448,
        start: 2329,
        length: 1931,
        // 4259 - 16 * 251
        last: 243,
    },
    Case {
        what: "from the first byte that is held to the last",
        areas: &[1420, 628],
        area: 628,
        begin: 1420,
        bits: 16_384,
        start: 0,
        length: 2048,
        // 2047 - 8 * 251
        last: 39,
    },
    Case {
        what: "five bits of the last byte",
        areas: &[381, 381],
        area: 381,
        begin: 0,
        bits: 13,
        start: 381,
        length: 2,
        // 382 - 251 = 131 = 1000 0011
        last: 0b1000_0000,
    },
    Case {
        what: "seven bits of the last byte",
        areas: &[381],
        area: 381,
        begin: 0,
        bits: 1655,
        start: 0,
        length: 207,
        // 206 = 1100 1110
        last: 0b1100_1110,
    },
    Case {
        what: "behind many small areas",
        areas: &[11, 11, 11, 11, 11, 11, 11, 11, 11, 11, 11],
        area: 11,
        begin: 105,
        bits: 88,
        start: 5,
        length: 11,
        last: 15,
    },
    Case {
        what: "none",
        areas: &[381],
        area: 381,
        begin: 0,
        bits: 0,
        start: 0,
        length: 0,
        last: 0,
    },
];

/// Whether these are the case's bytes.
fn are_wanted(bytes: &[u8], case: &Case) -> bool {
    let Some((last, front)) = bytes.split_last() else {
        return case.length == 0;
    };
    bytes.len() == case.length
        && *last == case.last
        && front.iter().enumerate().all(|(k, byte)| *byte
            == main_byte(usize::from(case.start).saturating_add(k)))
}

/// Whether the window gives the case's main data.
fn has_payload(window: &Window, case: &Case) -> bool {
    let area = u32::from(case.area);
    let begin = u32::from(case.begin);
    let bits = u32::from(case.bits);
    if (area + begin) as usize > window.held() || bits > 8 * (area + begin) {
        return false;
    }
    let mut payload = ArrayVec::new();
    window.payload(area, begin, bits, &mut payload);
    are_wanted(&payload, case)
}

#[test]
fn payloads(rt: HostRuntime) -> Result<(), Fail> {
    for case in &CASES {
        let window = window_over(&rt, case.areas)?;
        assert!(rt; has_payload(&window, case), "{}", case.what);
    }
    Ok(())
}

static AREA: [u8; 1441] = [0x55; 1441];

/// The length of an area that is pushed, and how many bytes are held then.
struct Pushed {
    length: usize,
    held: usize,
}

static PUSHED: [Pushed; 4] = table! {
    Pushed { length, held }
    (1420, 1420)
    (628, 2048)
    (1, 2048)
    (1441, 2048)
};

fn holds_after(window: &mut Window, pushed: &Pushed) -> bool {
    let Some(area) = AREA.get(..pushed.length) else {
        return false;
    };
    window.push_area(area);
    window.held() == pushed.held
}

#[test]
fn a_window_forgets(rt: HostRuntime) -> Result<(), Fail> {
    let mut window = Window::new(rt.alloc())?;
    assert!(rt; window.held() == 0);
    for pushed in &PUSHED {
        assert!(rt; holds_after(&mut window, pushed), "{}", pushed.length);
    }
    Ok(())
}
