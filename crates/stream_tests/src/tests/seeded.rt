//! Streams made from a seed. Their bytes are from a program in another language that follows the rules of the generator.

use commands::EditFault;
use drill::{StreamFault, Summary, drill, send_summary, stream_folder, write_stream};
use outside::{Call, Failed, MemFolder, MemSink};
use std::alloc::{AllocError, Global};
use std::process::Abort;
use std::test::Fail;
use test_files::texts::{TextFault, bytes_of_words};

/// The header, the side information and the main data of the frame that the seed 1 gives: 1,392 bits, in granules and channels of
/// 52, 417, 194 and 729.
static FIRST: &str = "\
fffb900000000034004b80000000342007f0000000030800dc000000016c801dc000000014363d1f
3c1c2107013f311e16320f07272607192a083c192a16133b120521183c14152f372e251b1a023918
0c231a360e1f19190f1f3f362e03380d0d3a3e261a24060e1c292d0e3f162130203b0f3118051005
091c130d2a3b08191213121d061f2a35020613180932011e2c3208311c12061531360f1736391d16
3a083435183c171c013b2d310e0f301907011b2f333d11001d250d0d2b330d3e1e0f3e262834263a
310313112824071b0a20";

/// The header, the side information and the first four bytes of the own area of each of the three frames that the seed 5 gives.
/// Their main data begin 0, 168 and 387 bytes before their own area.
static FRONTS: &str = "\
fffb90000000015700608000000008000a400000000ae400d000000001290029c00000003c281d2c
fffb9000540002540045000000002b600ae0000000034000ec00000000480020800000001e301c2f
fffb9000c18002e600480000000093a006e00000001538013200000000dd001f8000000002080a3d";

/// Whether these are the bytes of the frame that the seed 1 gives.
fn is_first(alloc: Global, stream: &[u8]) -> Result<bool, TextFault> {
    let front = bytes_of_words(alloc, &[], FIRST)?;
    Ok(
        stream.len() == 417
            && stream.starts_with(&front)
            && stream.iter().skip(210).all(|byte| *byte == 0),
    )
}

/// A number made from all bytes, each of which changes it.
fn hash_of(bytes: &[u8]) -> u32 {
    bytes.iter().fold(0, |hash: u32, byte| {
        hash.wrapping_mul(31).wrapping_add(u32::from(*byte))
    })
}

/// Whether each frame begins as its line says.
fn have_fronts(alloc: Global, stream: &[u8]) -> Result<bool, TextFault> {
    for (frame, line) in stream.chunks(417).zip(FRONTS.lines()) {
        if !frame.starts_with(&bytes_of_words(alloc, &[], line)?) {
            return Ok(false);
        }
    }
    Ok(true)
}

/// Whether these are the bytes of the three frames that the seed 5 gives.
fn are_three(alloc: Global, stream: &[u8]) -> Result<bool, TextFault> {
    let is_whole = stream.len() == 1251 && hash_of(stream) == 2_747_035_911;
    Ok(is_whole && have_fronts(alloc, stream)?)
}

/// Writes the stream of a seed as the file `s`, with room for it.
fn write(
    alloc: Global,
    folder: &mut MemFolder,
    seed: u32,
    count: u32,
) -> Result<Result<(), StreamFault>, AllocError> {
    folder.reserve("s", 417 * u64::from(count))?;
    Ok(write_stream(alloc, seed, count, folder, "s"))
}

/// The bytes of the file `s`, in a new vector.
fn written(alloc: Global, folder: &MemFolder) -> Result<Vec<u8>, AllocError> {
    let mut stream = Vec::new(alloc);
    stream.extend_from_slice(folder.get("s").unwrap_or(&[]))?;
    Ok(stream)
}

fn stream_in(
    alloc: Global,
    folder: &mut MemFolder,
    seed: u32,
    count: u32,
) -> Result<Vec<u8>, AllocError> {
    if write(alloc, folder, seed, count)?.is_err() {
        return Ok(Vec::new(alloc));
    }
    written(alloc, folder)
}

/// The stream of a seed.
fn stream_of(alloc: Global, seed: u32, count: u32) -> Result<Vec<u8>, AllocError> {
    let mut folder = MemFolder::new(alloc);
    stream_in(alloc, &mut folder, seed, count)
}

#[test]
fn streams_of_one_frame_and_of_three(rt: HostRuntime) -> Result<(), Fail> {
    let one = stream_of(rt.alloc(), 1, 1)?;
    assert!(rt; is_first(rt.alloc(), &one)?);
    let three = stream_of(rt.alloc(), 5, 3)?;
    assert!(rt; are_three(rt.alloc(), &three)?);
    Ok(())
}

fn is_alone(alloc: Global, folder: &MemFolder) -> Result<bool, TextFault> {
    let is_so = is_first(alloc, folder.get("s").unwrap_or(&[]))?;
    Ok(is_so && folder.get("p").is_none())
}

#[test]
fn a_folder_of_its_own(rt: HostRuntime) -> Result<(), Fail> {
    let folder = stream_folder(rt.alloc(), 1, 1, "s", "p")?;
    assert!(rt; is_alone(rt.alloc(), &folder) == Ok(true));
    Ok(())
}

fn has_bytes(folder: &MemFolder, count: usize) -> bool {
    folder.get("s").unwrap_or(&[]).len() == count
}

/// Whether writing a stream of 200 frames fails at the
/// second write, and what the first wrote is there.
fn fails_at_the_second_write(alloc: Global, folder: &mut MemFolder) -> Result<bool, AllocError> {
    folder.fail(Call::Write, 2)?;
    let is_refused = write(alloc, folder, 1, 200)? == Err(StreamFault::Write);
    Ok(is_refused && has_bytes(folder, 65_536))
}

/// 200 frames have 83,400 bytes, of which the first 65,536 are written at once.
#[test]
fn the_second_write_fails(rt: HostRuntime) -> Result<(), Fail> {
    let mut folder = MemFolder::new(rt.alloc());
    assert!(rt; fails_at_the_second_write(rt.alloc(), &mut folder)?);
    Ok(())
}

/// The line of the stream of one frame.
const LINE: &[u8] = b"1 frames, 417 bytes in, 469 bytes out, 0 lead-ins\n";

fn has_line(sink: &MemSink) -> bool {
    sink.sent() == LINE
}

/// Whether the line about the packed stream is sent, and has no room the second time.
fn drills_once(alloc: Global, sink: &mut MemSink) -> bool {
    drill(alloc, 1, 1, sink) == Ok(())
        && has_line(sink)
        && drill(alloc, 1, 1, sink) == Err(EditFault::Sent)
}

#[test]
fn one_frame_packed(rt: HostRuntime) -> Result<(), Fail> {
    let mut sink = MemSink::new(rt.alloc());
    sink.reserve(50)?;
    assert!(rt; drills_once(rt.alloc(), &mut sink));
    Ok(())
}

fn sends_once(sink: &mut MemSink, summary: &Summary) -> bool {
    send_summary(sink, summary) == Ok(())
        && has_line(sink)
        && send_summary(sink, summary) == Err(Failed)
}

#[test]
fn the_line(rt: HostRuntime) -> Result<(), Fail> {
    let summary = Summary {
        frames: 1,
        bytes_in: 417,
        bytes_out: 469,
        lead_ins: 0,
    };
    let mut sink = MemSink::new(rt.alloc());
    sink.reserve(50)?;
    assert!(rt; sends_once(&mut sink, &summary));
    Ok(())
}
