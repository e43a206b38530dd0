//! A folder whose files are shorter than it says.

use outside::{Failed, Folder, MemFolder, ShortFolder, read_full};
use std::alloc::{AllocError, Global};
use std::process::Abort;
use std::test::Fail;

/// A folder over one with the file `a` of `size` bytes, which says that there are `extra` more, and with room for eight bytes as
/// `o`.
fn shorter(alloc: Global, size: usize, extra: u64) -> Result<ShortFolder, AllocError> {
    let mut inner = MemFolder::new(alloc);
    let file = [7; 834];
    inner.put("a", file.get(..size).unwrap_or(&file))?;
    inner.reserve("o", 8)?;
    Ok(ShortFolder::new(inner, extra))
}

fn is_found(folder: &mut ShortFolder, wanted: u64) -> bool {
    folder.find("a") == Ok(wanted)
}

fn is_read(folder: &mut ShortFolder, name: &str, wanted: usize) -> bool {
    let mut bytes = [0; 1024];
    read_full(folder, name, 0, &mut bytes) == Ok(wanted)
}

fn is_shorter(folder: &mut ShortFolder) -> bool {
    is_found(folder, 839) && is_read(folder, "a", 834) && is_read(folder, "none", 0)
}

#[test]
fn five_bytes_shorter(rt: HostRuntime) -> Result<(), Fail> {
    let mut folder = shorter(rt.alloc(), 834, 5)?;
    assert!(rt; is_shorter(&mut folder));
    Ok(())
}

fn has_length(alloc: Global, size: usize, extra: u64, length: u64) -> Result<bool, AllocError> {
    let mut folder = shorter(alloc, size, extra)?;
    Ok(is_found(&mut folder, length))
}

#[test]
fn past_the_longest(rt: HostRuntime) -> Result<(), Fail> {
    assert!(rt; has_length(rt.alloc(), 417, 1_073_741_824, 1_073_742_241)?);
    assert!(rt; has_length(rt.alloc(), 1, u64::MAX, u64::MAX)?);
    Ok(())
}

fn is_written(folder: &mut ShortFolder, name: &str, wanted: Result<usize, Failed>) -> bool {
    folder.write(name, b"12345") == wanted && folder.get("o") == Some(b"12345".as_slice())
}

/// The first write creates the name, the second passes its room, and the third has none.
fn are_written(folder: &mut ShortFolder) -> bool {
    is_written(folder, "o", Ok(5))
        && is_written(folder, "o", Err(Failed))
        && is_written(folder, "none", Err(Failed))
}

#[test]
fn written_without_create(rt: HostRuntime) -> Result<(), Fail> {
    let mut folder = shorter(rt.alloc(), 1, 0)?;
    assert!(rt; are_written(&mut folder));
    Ok(())
}
