//! Frames worked out by hand. Rates and lengths are from ISO/IEC 11172-3 and 13818-3, 2.4.2.3 and 2.4.3.1.

use crate::appended::{Appending, side_of, side_of_four};
use crate::outputs::{are_at, put_empty};
use frame_header::Header;
use frame_writer::{Areas, FrameQueue, State, Writer};
use outside::{Call, Failed, Folder, MemFolder};
use reservoir::Payload;
use std::alloc::{AllocError, AllocGlobal, Global};
use std::process::Abort;
use std::test::Fail;

/// 128 kbit/s at 44,100 Hz in two channels: 417 bytes, and an area of 381.
static PLAIN: [u8; 4] = [0xff, 0xfb, 0x90, 0x00];

/// 8 kbit/s at 24,000 Hz in two channels, protected: 24 bytes, and an area of 1.
static SHORTEST: [u8; 4] = [0xff, 0xf2, 0x14, 0x00];

/// 160 kbit/s at 8,000 Hz in two channels, padded: 1,441 bytes, and an area of 1,420.
static LONGEST: [u8; 4] = [0xff, 0xe3, 0xea, 0x00];

fn header_of(bytes: [u8; 4]) -> Result<Header, Fail> {
    match Header::read(bytes) {
        Ok(header) => Ok(header),
        Err(_) => Err("no header".into()),
    }
}

/// Pushes these bytes as main data after those of `areas`; they begin `begin` bytes before an area of 381.
fn push(rt: &impl Abort, areas: &mut Areas, begin: u32, bytes: &[u8]) {
    assert!(rt; begin <= areas.free() && areas.waiting() <= 381);
    assert!(rt; bytes.len() <= 2048 && bytes.len() <= begin as usize + 381);
    areas.push(begin, 381, &Payload::whole(bytes));
}

fn has_one(areas: &Areas) -> bool {
    areas.free() == 81 && areas.settled(511) == 300
}

fn has_two(areas: &Areas) -> bool {
    areas.waiting() == 762 && areas.free() == 62
}

#[test]
fn two_areas(rt: HostRuntime) -> Result<(), Fail> {
    let mut areas = Areas::new(rt.alloc())?;
    push(&rt, &mut areas, 0, &[0x11; 300]);
    assert!(rt; has_one(&areas));
    push(&rt, &mut areas, 81, &[0x22; 400]);
    assert!(rt; has_two(&areas));
    Ok(())
}

/// The main data of a frame: how many bytes before its own area they begin, how many bits the frame says they have, and
/// their bytes; and, where it is asserted, how far back the next may begin then, and how many frames wait.
#[derive(Clone, Copy)]
pub struct Main<'a> {
    pub begin: u16,
    pub bits: u16,
    pub bytes: &'a [u8],
    pub after: Option<(u32, usize)>,
}

fn is_after(queue: &FrameQueue, after: Option<(u32, usize)>) -> bool {
    match after {
        Some((reach, count)) => queue.reach() == reach && queue.count() == count,
        None => true,
    }
}

/// Writes frames with this header.
pub fn write_all<D: Folder>(
    rt: &impl Abort,
    alloc: Global,
    header: &Header,
    frames: &[Main],
    folder: &mut D,
) -> Result<(), AllocError> {
    let mut appending = Appending::new(alloc, header)?;
    for main in frames {
        let side = side_of(main.begin, main.bits);
        let appended = appending.append(rt, header, &side, main.bytes, folder);
        assert!(rt; appended.is_ok() && is_after(&appending.queue, main.after));
    }
    assert!(rt; appending.finish(folder).is_ok());
    Ok(())
}

/// The file of frames with this header.
fn file_over<R: Abort + AllocGlobal>(
    rt: &R,
    folder: &mut MemFolder,
    header: &Header,
    frames: &[Main],
    room: u64,
) -> Result<Vec<u8>, AllocError> {
    put_empty(folder, "o", room)?;
    write_all(rt, rt.alloc(), header, frames, folder)?;
    let mut file = Vec::new(rt.alloc());
    file.extend_from_slice(folder.get("o").unwrap_or(&[]))?;
    Ok(file)
}

fn file_of<R: Abort + AllocGlobal>(
    rt: &R,
    header: [u8; 4],
    frames: &[Main],
    room: u64,
) -> Result<Vec<u8>, Fail> {
    let header = header_of(header)?;
    let mut folder = MemFolder::new(rt.alloc());
    Ok(file_over(rt, &mut folder, &header, frames, room)?)
}

/// 81 bytes of the first area are left.
static TWO: [Main; 2] = [
    Main {
        begin: 0,
        bits: 0,
        bytes: &[0x11; 300],
        after: Some((81, 1)),
    },
    Main {
        begin: 81,
        bits: 0,
        bytes: &[0x22; 400],
        after: None,
    },
];

/// 81 in nine bits is 0 0101 0001.
fn are_two(file: &[u8]) -> bool {
    file.len() == 834
        && are_at(file, &[1, 2, 4, 35], &[0xfb, 0x90, 0, 0])
        && are_at(file, &[36, 335, 336, 416], &[0x11, 0x11, 0x22, 0x22])
        && are_at(file, &[420, 421, 422, 423], &[0x00, 0x28, 0x80, 0])
        && are_at(file, &[453, 771, 772, 833], &[0x22, 0x22, 0, 0])
}

/// The second frame's main data begin in the first one's area.
#[test]
fn two_frames(rt: HostRuntime) -> Result<(), Fail> {
    let file = file_of(&rt, PLAIN, &TWO, 6144)?;
    assert!(rt; are_two(&file));
    Ok(())
}

/// Two such frames of four granules' channels with the gain 100: 600 bits each, 300 bytes, and 800 bits each, 400 bytes.
static OF_700: [Main; 2] = [
    Main {
        begin: 0,
        bits: 600,
        bytes: &[0x55; 300],
        after: None,
    },
    Main {
        begin: 81,
        bits: 800,
        bytes: &[0x55; 400],
        after: None,
    },
];

/// The header and the side information of each.
static FRONTS: [[u8; 36]; 2] = [
    *b"\xff\xfb\x90\0\0\0\x02\x58\0\x32\0\0\0\0\x4b\0\x06\x40\0\0\0\x09\x60\0\xc8\0\0\0\x01\x2c\0\x19\0\0\0\0",
    *b"\xff\xfb\x90\0\x28\x80\x03\x20\0\x32\0\0\0\0\x64\0\x06\x40\0\0\0\x0c\x80\0\xc8\0\0\0\x01\x90\0\x19\0\0\0\0",
];

/// Their bytes: the first area has 81 bytes of the second frame's main data, and 62 of the second area are left.
fn bytes_of_700(alloc: Global) -> Result<Vec<u8>, AllocError> {
    let mut bytes = Vec::new(alloc);
    bytes.extend_from_slice(&FRONTS[0])?;
    bytes.extend_from_slice(&[0x55; 381])?;
    bytes.extend_from_slice(&FRONTS[1])?;
    bytes.extend_from_slice(&[0x55; 319])?;
    bytes.resize(834, 0)?;
    Ok(bytes)
}

/// Writes a frame to the file `o`.
fn write_frame<D: Folder>(
    rt: &impl Abort,
    writer: &mut Writer,
    header: &Header,
    main: &Main,
    folder: &mut D,
) -> Result<(), Failed> {
    let side = side_of_four(main.begin, main.bits);
    assert!(rt; writer.class().is_same(header.class()) && side.fits(header.class()));
    assert!(rt; writer.state() == State::Open);
    assert!(rt; u32::from(side.main_data_begin) <= writer.reach());
    let most = usize::from(side.main_data_begin) + header.area() as usize;
    assert!(rt; main.bytes.len() <= 2048 && main.bytes.len() <= most);
    folder.find("o")?;
    writer.frame(header, &side, main.bytes, folder, "o")
}

/// Writes the end of the frames, if no write failed.
fn write_end<D: Folder>(writer: &mut Writer, folder: &mut D) -> Result<(), Failed> {
    folder.find("o")?;
    if writer.state() != State::Open {
        return Ok(());
    }
    writer.finish(folder, "o")
}

/// Writes two frames to the file, whose `failing`th write fails, and returns how far the writer is then.
fn write_two<R: Abort + AllocGlobal>(
    rt: &R,
    folder: &mut MemFolder,
    failing: u64,
) -> Result<State, Fail> {
    let header = header_of(PLAIN)?;
    put_empty(folder, "o", 834)?;
    folder.fail(Call::Write, failing)?;
    let mut writer = Writer::new(rt.alloc(), header.class())?;
    for main in &OF_700 {
        let _ = write_frame(rt, &mut writer, &header, main, folder);
    }
    let _ = write_end(&mut writer, folder);
    Ok(writer.state())
}

/// A frame is written to the file by the call with the next one, if its area can't be reached then.
#[test]
fn frames_straight_to_a_file(rt: HostRuntime) -> Result<(), Fail> {
    let mut folder = MemFolder::new(rt.alloc());
    let state = write_two(&rt, &mut folder, 9)?;
    let wanted = bytes_of_700(rt.alloc())?;
    assert!(rt; state == State::Finished && folder.get("o") == Some(wanted.as_slice()));
    Ok(())
}

/// After a failed write the writer takes nothing more.
#[test]
fn a_writer_that_failed(rt: HostRuntime) -> Result<(), Fail> {
    let mut folder = MemFolder::new(rt.alloc());
    let state = write_two(&rt, &mut folder, 1)?;
    assert!(rt; state == State::Failed && folder.get("o").unwrap_or(&[1]).is_empty());
    Ok(())
}

/// Two frames, written to a file in one write, with no more room than they need.
#[test]
fn two_frames_in_a_file(rt: HostRuntime) -> Result<(), Fail> {
    let file = file_of(&rt, PLAIN, &TWO, 834)?;
    assert!(rt; are_two(&file));
    Ok(())
}

static LAST: [u8; 256] = [0x44; 256];

/// 256 frames of the shortest kind, where only the last has main data.
fn waiting(alloc: Global) -> Result<Vec<Main<'static>>, AllocError> {
    let mut frames = Vec::new(alloc);
    for begin in 0..255 {
        frames.push(Main {
            begin,
            bits: 0,
            bytes: &[],
            after: if begin == 254 { Some((255, 255)) } else { None },
        })?;
    }
    frames.push(Main {
        begin: 255,
        bits: 0,
        bytes: &LAST,
        after: None,
    })?;
    Ok(frames)
}

fn have_waited(file: &[u8]) -> bool {
    file.len() == 6144
        && are_at(file, &[6124, 6125, 6126], &[0x3c, 0x42, 0xff])
        && are_at(file, &[6127, 6142, 6143], &[0, 0, 0x44])
        && file
            .chunks(24)
            .take(255)
            .all(|frame| are_at(frame, &[3, 23], &[0x00, 0x44]))
}

/// The main data of the 256th frame go through the areas of all frames. Its check word is the remainder of 14 00 ff
/// and 16 times 00, worked out by another program.
#[test]
fn as_many_as_may_wait(rt: HostRuntime) -> Result<(), Fail> {
    let frames = waiting(rt.alloc())?;
    let file = file_of(&rt, SHORTEST, &frames, 6144)?;
    assert!(rt; have_waited(&file));
    Ok(())
}

#[test]
fn the_longest_frame(rt: HostRuntime) -> Result<(), Fail> {
    let main = Main {
        begin: 0,
        bits: 0,
        bytes: &[0x33; 1420],
        after: None,
    };
    let file = file_of(&rt, LONGEST, &[main], 6144)?;
    assert!(rt; file.len() == 1441 && are_at(&file, &[20, 21, 1440], &[0, 0x33, 0x33]));
    Ok(())
}

/// How many bytes of its area the first of several frames of the longest kind uses.
const USED: usize = 1400;

/// The other bytes of its area, where the main data of the next frame begin.
const LEFT: u16 = 20;

/// Writes `count` frames of the longest kind, and the end. All bytes of the main data of frame n, counted from 0, are n + 1.
fn write_many<D: Folder>(
    rt: &impl Abort,
    frames: &mut Appending,
    header: &Header,
    count: u8,
    folder: &mut D,
) -> Result<(), Failed> {
    for number in 0..count {
        let begin = if number == 0 { 0 } else { LEFT };
        let payload = [number + 1; USED + LEFT as usize];
        let size = USED + usize::from(begin);
        frames.append(rt, header, &side_of(begin, 0), &payload[..size], folder)?;
    }
    frames.finish(folder)
}

/// The byte at this place of a file of `count` such frames. Before the area are the header's 4 bytes, and the side
/// information's 17, the first of which is main_data_begin.
fn byte_at(place: usize, count: u8) -> u8 {
    let number = (place / 1441 % 256) as u8;
    match place % 1441 {
        0 => 0xff,
        1 => 0xe3,
        2 => 0xea,
        4 if number > 0 => 20,
        at if at < 21 => 0,
        at if at < 1421 => number.wrapping_add(1),
        _ if number.wrapping_add(1) == count => 0,
        _ => number.wrapping_add(2),
    }
}

/// How many frames are written, and how many bytes the file holds where its first write fails, its second, and so on, and
/// finally where none does.
struct Run {
    count: u8,
    held: &'static [usize],
}

/// 65,536 bytes are written at once, so 100 frames of 1,441 bytes fill the buffer twice before the end. Of 46 frames
/// the last waits until the end, which then fills the buffer.
static RUNS: [Run; 2] = [
    Run {
        count: 100,
        held: &[0, 65_536, 131_072, 144_100],
    },
    Run {
        count: 46,
        held: &[0, 65_536, 66_286],
    },
];

/// Whether everything is written.
fn writes_all<R: Abort + AllocGlobal>(
    rt: &R,
    count: u8,
    folder: &mut MemFolder,
) -> Result<bool, Fail> {
    let header = header_of(LONGEST)?;
    let mut frames = Appending::new(rt.alloc(), &header)?;
    Ok(write_many(rt, &mut frames, &header, count, folder).is_ok())
}

/// Whether these are the first `held` bytes of the file.
fn is_held(bytes: &[u8], count: u8, held: usize) -> bool {
    bytes.len() == held
        && bytes
            .iter()
            .enumerate()
            .all(|(place, byte)| *byte == byte_at(place, count))
}

/// Makes one write fail, counted from 1: the file holds a prefix of the bytes.
fn expect_held_in<R: Abort + AllocGlobal>(
    rt: &R,
    folder: &mut MemFolder,
    run: &Run,
    failing: usize,
    held: usize,
) -> Result<(), Fail> {
    put_empty(folder, "o", 144_100)?;
    folder.fail(Call::Write, failing as u64)?;
    let is_whole = writes_all(rt, run.count, folder)?;
    assert!(rt; is_whole == (failing == run.held.len()), "write {failing}");
    let bytes = folder.get("o").unwrap_or(&[]);
    assert!(rt; is_held(bytes, run.count, held), "write {failing}");
    Ok(())
}

fn expect_held<R: Abort + AllocGlobal>(
    rt: &R,
    run: &Run,
    failing: usize,
    held: usize,
) -> Result<(), Fail> {
    let mut folder = MemFolder::new(rt.alloc());
    expect_held_in(rt, &mut folder, run, failing, held)
}

/// Each write fails in order.
#[test]
fn writes_fail(rt: HostRuntime) -> Result<(), Fail> {
    for run in &RUNS {
        for (at, held) in run.held.iter().enumerate() {
            expect_held(&rt, run, at + 1, *held)?;
        }
    }
    Ok(())
}
