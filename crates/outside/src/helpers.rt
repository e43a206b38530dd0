//! Reads, appends and sends bytes whole, in as many calls as it takes.
ghost use Rattle.std.specs.Prelude.{◌≡◌, ◌+◌, ◌-◌, ◌^◌, ◌<◌, ◌≤◌, ℕ, length, take, OnOk, OnErr};
ghost use Rattle.outside.specs.Files.{sent_and_more, IsFileThere};
ghost use Rattle.outside.specs.Counts.{HasCause};
ghost use Rattle.outside.specs.Answers.{ReadFull, ReadOn, WriteAllAnswer};

use crate::folder::{Failed, Folder};
use crate::sink::Sink;

/// Appends all the bytes to the file.
///
/// # Errors
/// If a write failed. Then a prefix of the bytes, and not all of them, was appended.
pub fn write_all<D: Folder>(folder: &mut D, name: &str, bytes: &[u8]) -> Result<(), Failed>
    requires { IsFileThere (D.seen folder.old).files name.now }
    ensures { WriteAllAnswer name.now bytes.now (D.seen folder.old) (D.seen folder.new) result }
{
    let mut done = 0;
    while done < bytes.len() {
        done += folder.write(name, &bytes[done..])?;
    }
    Ok(())
}

/// Sends all the bytes.
///
/// # Errors
/// If a write failed. Then a prefix of the bytes, none to all of them, was sent.
pub fn send_all<T: Sink>(sink: &mut T, bytes: &[u8]) -> Result<(), Failed>
    ensures written { OnOk result ((T.heard sink.new).sent
        ≡ sent_and_more (T.heard sink.old).sent bytes.now) }
    ensures front { OnErr result ((k : ℕ) × (k ≤ length bytes.now)
        × ((T.heard sink.new).sent ≡ sent_and_more (T.heard sink.old).sent (take k bytes.now))) }
    ensures cause { HasCause (T.heard sink.old).faults (T.heard sink.new).faults result }
{
    let mut done = 0;
    while done < bytes.len() {
        done += sink.write(&bytes[done..])?;
    }
    Ok(())
}

/// Reads the file from the offset `at` on until `into` is full or a read returns no byte, and
/// returns how many bytes were read. If the folder returns all that it has, one read fills `into`.
///
/// # Errors
/// If a read failed.
pub fn read_full<D: Folder>(
    folder: &mut D,
    name: &str,
    at: u64,
    into: &mut [u8],
) -> Result<usize, Failed>
    requires there { IsFileThere (D.seen folder.old).files name.now }
    requires short { at + length into.old < 2 ^ 63 }
    ensures { ReadFull name.now at into.old into.new (D.seen folder.old)
        (D.seen folder.new) result }
{
    let enough = into.len();
    read_on(folder, name, at, into, 0, enough)
}

/// Continues reading a file whose first `have` bytes from the offset `at` on are already in `into`,
/// until there are `enough` or a read returns no byte, and returns how many there are then. Each
/// read asks for as much as `into` still has room for.
///
/// # Errors
/// If a read failed.
pub fn read_on<D: Folder>(
    folder: &mut D,
    name: &str,
    at: u64,
    into: &mut [u8],
    have: usize,
    enough: usize,
) -> Result<usize, Failed>
    requires there { IsFileThere (D.seen folder.old).files name.now }
    requires short { at + length into.old < 2 ^ 63 }
    requires room { have ≤ length into.old }
    requires enough { enough ≤ length into.old }
    ensures { ReadOn name.now at have enough into.old into.new (D.seen folder.old)
        (D.seen folder.new) result }
{
    let mut done = have;
    while done < enough {
        let got = folder.read(name, at + done as u64, &mut into[done..])?;
        if got == 0 {
            return Ok(done);
        }
        done += got;
    }
    Ok(done)
}
