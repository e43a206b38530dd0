//! What the system does with real files and streams.
use super::copied;
use on_disk::{DiskFolder, StdSink};
use outside::{Failed, FindFault, Folder, Sink};
use std::alloc::Global;
use std::cell::Cell;
use std::fs;
use std::fs::{File, OpenFile};
use std::io::Write;
use std::os::unix::fs::symlink;
use std::process::Abort;
use std::rt::Files;
use std::test::Fail;
use test_files::shaky::{Moves, Notes, Shaky};

// A directory with one file. Each test has its own, since tests may run side by side.
fn prepare<R: Files + AllocGlobal>(rt: &R, directory: &str, file: &str) -> Result<(), Fail> {
    let _ = fs::remove_dir_all(rt, directory);
    fs::create_dir(rt, directory)?;
    fs::write(rt, file, "0123456789")?;
    Ok(())
}

// Asserts that the file of this name holds this text.
fn expect<R: Files + AllocGlobal + Abort>(rt: &R, name: &str, text: &str) -> Result<(), Fail> {
    let content = fs::read_to_string(rt, name)?;
    assert!(rt; content.as_str() == text, "{name}");
    Ok(())
}

// Makes a copy of the ten bytes, and asserts that it has no other bytes.
fn expect_copied<R: Files + AllocGlobal + Abort>(
    rt: &R,
    folder: &mut DiskFolder<R>,
    from: &str,
    to: &str,
) -> Result<(), Fail> {
    assert!(rt; copied(folder, from, to) == Ok(10), "{to}");
    expect(rt, to, "0123456789")
}

// Appends two bytes, and asserts that the file has this text then.
fn expect_grown<R: Files + AllocGlobal + Abort>(
    rt: &R,
    folder: &mut DiskFolder<R>,
    name: &str,
    bytes: &[u8; 2],
    text: &str,
) -> Result<(), Fail> {
    assert!(rt; folder.write(name, bytes) == Ok(2), "{text}");
    expect(rt, name, text)
}

// Whether `count` bytes are read from this offset on, and the rest of the room stays.
fn is_read<R: Files>(
    folder: &mut DiskFolder<R>,
    name: &str,
    at: u64,
    count: usize,
    wanted: &[u8; 4],
) -> bool {
    let mut into = [b'-'; 4];
    folder.read(name, at, &mut into) == Ok(count) && into == *wanted
}

fn expect_files<R: Files + AllocGlobal + Abort>(
    rt: &R,
    folder: &mut DiskFolder<R>,
) -> Result<(), Fail> {
    expect_copied(rt, folder, "outside_files/from", "outside_files/to")?;
    expect_grown(rt, folder, "outside_files/to", b"ab", "0123456789ab")?;
    fs::write(rt, "outside_files/link", "longer than what comes")?;
    expect_copied(rt, folder, "outside_files/from", "outside_files/link")?;
    fs::write(rt, "outside_files/short", "-")?;
    expect_copied(rt, folder, "outside_files/from", "outside_files/short")?;
    // Another file isn't taken for the one that was found, though it is as long.
    fs::write(rt, "outside_files/alike", "0123456789")?;
    expect_copied(rt, folder, "outside_files/from", "outside_files/alike")?;
    assert!(rt; is_read(folder, "outside_files/from", 7, 3, b"789-"));
    assert!(rt; is_read(folder, "outside_files/from", 10, 0, b"----"));
    // A file that is opened again.
    expect_grown(rt, folder, "outside_files/to", b"cd", "0123456789abcd")
}

fn is_not_found<R: Files>(folder: &mut DiskFolder<R>, name: &str, fault: FindFault) -> bool {
    folder.find(name) == Err(fault)
}

// Whether a write to this file fails: bytes go only to files that the folder created.
fn is_unwritten<R: Files>(folder: &mut DiskFolder<R>, name: &str) -> bool {
    folder.write(name, b"ab").is_err()
}

// Asserts what holds of the files, before the folder is dropped.
fn expect_over_files<R: Files + AllocGlobal + Abort>(rt: &R) -> Result<(), Fail> {
    let mut folder = DiskFolder::new(rt, rt.alloc());
    assert!(rt; is_not_found(&mut folder, "outside_files/to", FindFault::Absent));
    assert!(rt; is_not_found(&mut folder, "outside_files", FindFault::Failed));
    assert!(rt; is_unwritten(&mut folder, "outside_files/from"));
    expect_files(rt, &mut folder)
}

#[test]
fn real_files(rt: HostRuntime) -> Result<(), Fail> {
    prepare(&rt, "outside_files", "outside_files/from")?;
    expect_over_files(&rt)?;
    fs::remove_dir_all(&rt, "outside_files")?;
    Ok(())
}

// Two files are created, so the first has to be opened again, and it was removed in between.
fn expect_removed<R: Files + AllocGlobal + Abort>(rt: &R) -> Result<(), Fail> {
    let mut folder = DiskFolder::new(rt, rt.alloc());
    assert!(rt; folder.create("outside_removed/to").is_ok());
    assert!(rt; folder.create("outside_removed/other").is_ok());
    fs::remove_file(rt, "outside_removed/to")?;
    assert!(rt; is_unwritten(&mut folder, "outside_removed/to"));
    Ok(())
}

// A write doesn't make a file again.
#[test]
fn a_removed_file(rt: HostRuntime) -> Result<(), Fail> {
    prepare(&rt, "outside_removed", "outside_removed/from")?;
    expect_removed(&rt)?;
    assert!(rt; !fs::exists(&rt, "outside_removed/to")?);
    fs::remove_dir_all(&rt, "outside_removed")?;
    Ok(())
}

// A name is noted before its file is made, so where
// making it fails, bytes may go to a file of this name.
fn expect_noted_first<R: Files + AllocGlobal + Abort>(rt: &R) -> Result<(), Fail> {
    let mut folder = DiskFolder::new(rt, rt.alloc());
    assert!(rt; folder.create("outside_noted/new/to").is_err());
    fs::create_dir(rt, "outside_noted/new")?;
    fs::write(rt, "outside_noted/new/to", "")?;
    expect_grown(rt, &mut folder, "outside_noted/new/to", b"ab", "ab")
}

#[test]
fn a_file_that_was_not_made(rt: HostRuntime) -> Result<(), Fail> {
    prepare(&rt, "outside_noted", "outside_noted/from")?;
    expect_noted_first(&rt)?;
    fs::remove_dir_all(&rt, "outside_noted")?;
    Ok(())
}

fn is_told<R: Files>(folder: &mut DiskFolder<R>, name: &str, answer: Result<bool, Failed>) -> bool {
    folder.there(name) == answer
}

// A link that leads to a file, one that leads nowhere, a file without bytes, and a directory.
fn prepare_names<R: Files + AllocGlobal>(rt: &R) -> Result<(), Fail> {
    prepare(rt, "outside_there", "outside_there/from")?;
    symlink(rt, "from", "outside_there/link")?;
    symlink(rt, "none", "outside_there/dead")?;
    fs::write(rt, "outside_there/empty", "")?;
    fs::create_dir(rt, "outside_there/directory")?;
    Ok(())
}

// What stands under these names, except the device.
static THERE: [&str; 6] = [
    "outside_there/from",
    "outside_there/link",
    "outside_there/dead",
    "outside_there/empty",
    "outside_there/directory",
    "outside_there/directory/",
];

fn expect_told<R: Files + Abort>(rt: &R, folder: &mut DiskFolder<R>) {
    for name in THERE {
        assert!(rt; is_told(folder, name, Ok(true)), "{name}");
    }
    assert!(rt; is_told(folder, "/dev/null", Ok(true)));
    assert!(rt; is_told(folder, "outside_there/none", Ok(false)));
    assert!(rt; is_told(folder, "outside_there/none/to", Ok(false)));
    assert!(rt; is_told(folder, "outside_there/from/to", Err(Failed)));
}

// Whether the name can't be made, and nothing can be written to it.
fn is_unmade<R: Files>(folder: &mut DiskFolder<R>, name: &str) -> bool {
    folder.create_new(name).is_err() && is_unwritten(folder, name)
}

fn expect_unmade<R: Files + Abort>(rt: &R, folder: &mut DiskFolder<R>) {
    for name in THERE {
        assert!(rt; is_unmade(folder, name), "{name}");
    }
    assert!(rt; is_unmade(folder, "/dev/null"));
    assert!(rt; is_unmade(folder, "outside_there/none/to"));
    assert!(rt; is_unmade(folder, "outside_there/from/to"));
}

// A file that was made takes bytes until another is made: then its name may be another's.
fn expect_made<R: Files + AllocGlobal + Abort>(
    rt: &R,
    folder: &mut DiskFolder<R>,
) -> Result<(), Fail> {
    assert!(rt; folder.create_new("outside_there/to").is_ok());
    expect_grown(rt, folder, "outside_there/to", b"ab", "ab")?;
    assert!(rt; folder.create_new("outside_there/to").is_err());
    expect_grown(rt, folder, "outside_there/to", b"cd", "abcd")?;
    assert!(rt; folder.create_new("outside_there/other").is_ok());
    assert!(rt; is_unwritten(folder, "outside_there/to"));
    expect_grown(rt, folder, "outside_there/other", b"ab", "ab")
}

fn expect_over_there<R: Files + AllocGlobal + Abort>(rt: &R) -> Result<(), Fail> {
    let mut folder = DiskFolder::new(rt, rt.alloc());
    expect_told(rt, &mut folder);
    expect_unmade(rt, &mut folder);
    expect_made(rt, &mut folder)
}

// Nothing that is there is changed, and no link is followed.
#[test]
fn names_that_are_there(rt: HostRuntime) -> Result<(), Fail> {
    prepare_names(&rt)?;
    expect_over_there(&rt)?;
    expect(&rt, "outside_there/from", "0123456789")?;
    expect(&rt, "outside_there/empty", "")?;
    expect(&rt, "outside_there/to", "abcd")?;
    assert!(rt; !fs::exists(&rt, "outside_there/none")?);
    fs::remove_dir_all(&rt, "outside_there")?;
    Ok(())
}

fn is_found<R: Files>(folder: &mut DiskFolder<R>, name: &str) -> bool {
    folder.find(name) == Ok(10)
}

fn is_uncreated<R: Files>(folder: &mut DiskFolder<R>, name: &str) -> bool {
    folder.create(name).is_err()
}

// Through a hard link that is made once the file was found, through a symbolic link, and through a longer path.
fn expect_names<R: Files + AllocGlobal + Abort>(
    rt: &R,
    folder: &mut DiskFolder<R>,
) -> Result<(), Fail> {
    assert!(rt; is_found(folder, "outside_names/from"));
    fs::hard_link(rt, "outside_names/from", "outside_names/to")?;
    symlink(rt, "from", "outside_names/link")?;
    assert!(rt; is_uncreated(folder, "outside_names/to"));
    assert!(rt; is_uncreated(folder, "outside_names/link"));
    assert!(rt; is_uncreated(folder, "outside_names/./from"));
    Ok(())
}

fn expect_over_names<R: Files + AllocGlobal + Abort>(rt: &R) -> Result<(), Fail> {
    let mut folder = DiskFolder::new(rt, rt.alloc());
    expect_names(rt, &mut folder)
}

#[test]
fn a_file_of_two_names(rt: HostRuntime) -> Result<(), Fail> {
    prepare(&rt, "outside_names", "outside_names/from")?;
    expect_over_names(&rt)?;
    expect(&rt, "outside_names/from", "0123456789")?;
    fs::remove_dir_all(&rt, "outside_names")?;
    Ok(())
}

// Whether a file of this many bytes is found, none of which takes room on the disk.
fn expect_long<R: Files + AllocGlobal + Abort>(rt: &R, length: u64) -> Result<(), Fail> {
    File::create(rt, "outside_long/from")?.set_len(length)?;
    let mut folder = DiskFolder::new(rt, rt.alloc());
    assert!(rt; folder.find("outside_long/from") == Ok(length));
    Ok(())
}

// Its length doesn't fit into 32 bits.
#[test]
fn a_long_file(rt: HostRuntime) -> Result<(), Fail> {
    prepare(&rt, "outside_long", "outside_long/from")?;
    expect_long(&rt, 5_000_000_000)?;
    fs::remove_dir_all(&rt, "outside_long")?;
    Ok(())
}

// Reads go on, or jump, while somebody else makes the file shorter, longer, and as long as it was.
fn expect_other_lengths<R: Files + AllocGlobal + Abort>(
    rt: &R,
    folder: &mut DiskFolder<R>,
    name: &str,
) -> Result<(), Fail> {
    assert!(rt; is_found(folder, name));
    assert!(rt; is_read(folder, name, 0, 4, b"0123"));
    fs::write(rt, name, "abcdefg")?;
    assert!(rt; is_read(folder, name, 4, 3, b"efg-"));
    assert!(rt; is_read(folder, name, 7, 0, b"----"));
    assert!(rt; is_read(folder, name, 9, 0, b"----"));
    fs::write(rt, name, "ABCDEFGHIJKL")?;
    assert!(rt; is_read(folder, name, 7, 4, b"HIJK"));
    assert!(rt; is_read(folder, name, 11, 1, b"L---"));
    fs::write(rt, name, "9876543210")?;
    assert!(rt; is_read(folder, name, 8, 2, b"10--"));
    fs::write(rt, name, "")?;
    assert!(rt; is_read(folder, name, 2, 0, b"----"));
    Ok(())
}

fn expect_over_other_lengths<R: Files + AllocGlobal + Abort>(rt: &R) -> Result<(), Fail> {
    let mut folder = DiskFolder::new(rt, rt.alloc());
    expect_other_lengths(rt, &mut folder, "outside_lengths/from")
}

#[test]
fn a_file_that_changes_its_length(rt: HostRuntime) -> Result<(), Fail> {
    prepare(&rt, "outside_lengths", "outside_lengths/from")?;
    expect_over_other_lengths(&rt)?;
    fs::remove_dir_all(&rt, "outside_lengths")?;
    Ok(())
}

fn is_read_as<R: Files>(folder: &mut DiskFolder<R>, answer: Result<usize, Failed>) -> bool {
    let mut into = [b'-'; 4];
    folder.read("outside_shaky/from", 3, &mut into) == answer
        && (answer.is_err() || into == *b"3456")
}

// Two reads are interrupted, the third moves fewer bytes, so the fourth is asked for the rest, and fails.
fn are_reads_shaky<R: Files>(folder: &mut DiskFolder<R>) -> bool {
    is_found(folder, "outside_shaky/from")
        && is_read_as(folder, Err(Failed))
        && is_read_as(folder, Ok(4))
}

fn is_written_as<R: Files>(
    folder: &mut DiskFolder<R>,
    bytes: &[u8],
    answer: Result<usize, Failed>,
) -> bool {
    folder.write("outside_shaky/to", bytes) == answer
}

// Two writes are interrupted, the third moves fewer bytes, and the fourth fails.
fn are_writes_shaky<R: Files>(folder: &mut DiskFolder<R>) -> bool {
    folder.create("outside_shaky/to").is_ok()
        && is_written_as(folder, b"abcdef", Ok(2))
        && is_written_as(folder, b"cdef", Err(Failed))
        && is_written_as(folder, b"cdef", Ok(4))
}

fn expect_over_shaky<R: Files + AllocGlobal + Abort>(rt: &R) {
    let files = Shaky {
        files: rt,
        opens: Cell::new(0),
    };
    let mut folder = DiskFolder::new(&files, rt.alloc());
    assert!(rt; are_reads_shaky(&mut folder));
    assert!(rt; are_writes_shaky(&mut folder));
}

#[test]
fn a_shaky_file(rt: HostRuntime) -> Result<(), Fail> {
    prepare(&rt, "outside_shaky", "outside_shaky/from")?;
    expect_over_shaky(&rt);
    expect(&rt, "outside_shaky/to", "abcdef")?;
    fs::remove_dir_all(&rt, "outside_shaky")?;
    Ok(())
}

// Whether the device is no file that can be found, and wasn't opened either: opening a pipe may block.
fn is_left_closed<R: Files>(files: &Shaky<R>, alloc: Global) -> bool {
    let mut folder = DiskFolder::new(files, alloc);
    folder.find("/dev/null") == Err(FindFault::Failed) && files.opens.get() == 0
}

#[test]
fn a_device_is_not_opened(rt: HostRuntime) -> Result<(), Fail> {
    let files = Shaky {
        files: &rt,
        opens: Cell::new(0),
    };
    assert!(rt; is_left_closed(&files, rt.alloc()));
    Ok(())
}

fn is_sent_as<W: Write + Drop>(
    sink: &mut StdSink<W>,
    bytes: &[u8],
    answer: Result<usize, Failed>,
) -> bool {
    sink.write(bytes) == answer
}

// The first two writes are interrupted; then come the third write, the fourth write, the second flush, and what succeeds.
fn are_sends_shaky<W: Write + Drop>(sink: &mut StdSink<W>) -> bool {
    is_sent_as(sink, b"abc", Ok(2))
        && is_sent_as(sink, b"c", Err(Failed))
        && is_sent_as(sink, b"cd", Err(Failed))
        && is_sent_as(sink, b"e", Ok(1))
}

fn expect_over_stream(rt: &impl Abort, notes: &mut Notes) {
    let mut sink = StdSink::new(notes);
    assert!(rt; are_sends_shaky(&mut sink));
}

// Each of the writes that move bytes, and the write whose flush fails, is followed by one flush.
fn are_noted(notes: &Notes) -> bool {
    notes.bytes.as_slice() == b"abcde".as_slice() && notes.moves.calls == 6 && notes.flushes == 3
}

#[test]
fn a_shaky_stream(rt: HostRuntime) -> Result<(), Fail> {
    let mut notes = Notes {
        bytes: Vec::new(rt.alloc()),
        moves: Moves::new(),
        flushes: 0,
        failing_flush: 2,
    };
    expect_over_stream(&rt, &mut notes);
    assert!(rt; are_noted(&notes));
    Ok(())
}
