//! Where a real file ends, and how it is put at an offset.
ghost use Rattle.std.specs.Prelude.{◌≡◌, ◌-◌, ℕ, List, length, pos, IfOk, OnOk, IsTrue, Some};
ghost use Rattle.on_disk.specs.RealFiles.{TellsBytes};
ghost use Rattle.std.specs.Io.Seek.{SeekMoves};
ghost use Rattle.std.specs.Io.KnownBytes.{Keeps};

use std::io;
use std::io::{ErrorKind, Seek, SeekFrom};

/// The length of a file in bytes, found by a seek to its end.
///
/// # Errors
/// If the seek fails.
pub fn length_of<F: Seek>(file: &mut F) -> io::Result<u64>
    ensures length { (xs : List ℕ) → TellsBytes F.stream_position F.stream_bytes file.old xs
        → IfOk result (λ n. n ≡ length xs) }
    ensures moves { SeekMoves (F.stream_position file.old) (F.stream_position file.new)
        (F.stream_bytes file.old) (SeekFrom.End (pos 0)) result }
    ensures bytes { Keeps (F.stream_bytes file.old) (F.stream_bytes file.new) }
{
    file.seek(SeekFrom::End(0))
}

/// Puts the file at the offset `at`, and returns how many bytes it has from there on.
///
/// If it is as long as it was once, `size` bytes, one seek does both: it goes back from the end by
/// as many bytes as should be left. Otherwise the length is asked for again.
///
/// # Errors
/// If a seek fails.
pub fn put_at<F: Seek>(file: &mut F, size: u64, at: u64) -> io::Result<u64>
    ensures left { (xs : List ℕ) → TellsBytes F.stream_position F.stream_bytes file.old xs
        → IfOk result (λ n. n ≡ length xs - at) }
    ensures stands { (xs : List ℕ) → TellsBytes F.stream_position F.stream_bytes file.old xs
        → OnOk result (F.stream_position file.new ≡ Some at) }
    ensures bytes { (xs : List ℕ) → TellsBytes F.stream_position F.stream_bytes file.old xs
        → OnOk result (F.stream_bytes file.new ≡ Some xs) }
{
    let left = size.saturating_sub(at);
    if leads_to(file, left, at)? {
        return Ok(left);
    }
    let size = length_of(file)?;
    file.seek(SeekFrom::Start(at))?;
    Ok(size.saturating_sub(at))
}

// Goes back from the end of the file by `left` bytes, and returns whether that leads to the offset
// `at`: then so many bytes are left from there on.
fn leads_to<F: Seek>(file: &mut F, left: u64, at: u64) -> io::Result<bool>
    ensures tells { (xs : List ℕ) → TellsBytes F.stream_position F.stream_bytes file.old xs
        → TellsBytes F.stream_position F.stream_bytes file.new xs }
    ensures left { (xs : List ℕ) → TellsBytes F.stream_position F.stream_bytes file.old xs
        → IfOk result (λ there. IsTrue there → left ≡ length xs - at) }
    ensures stands { (xs : List ℕ) → TellsBytes F.stream_position F.stream_bytes file.old xs
        → IfOk result (λ there. IsTrue there → F.stream_position file.new ≡ Some at) }
{
    let Ok(back) = i64::try_from(left) else {
        return Ok(false);
    };
    match file.seek(SeekFrom::End(-back)) {
        Ok(place) => Ok(place == at),
        // There are fewer bytes than that.
        Err(error) if error.kind() == ErrorKind::InvalidInput => Ok(false),
        Err(error) => Err(error),
    }
}
