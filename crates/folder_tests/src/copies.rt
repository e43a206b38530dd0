//! A copy by calls of a folder, over one in memory and over real files.
//!
//! A test owns its folder and ends in one place, and what it asserts is
//! in small functions that borrow the folder: that costs the check least.
mod real;

use outside::{Call, Failed, Folder, MemFolder, read_full, write_all};
use std::alloc::AllocError;
use std::process::Abort;
use std::test::Fail;

#[tactic(auto, using(outside::proofs::FilesLemmas::emptied_there))]
fn copied<D: Folder>(folder: &mut D, from: &str, to: &str) -> Result<usize, Failed> {
    let mut bytes = [0; 16];
    folder.find(from)?;
    let count = read_full(folder, from, 0, &mut bytes)?;
    folder.create(to)?;
    write_all(folder, to, &bytes[..count])?;
    Ok(count)
}

fn is_copied(
    folder: &mut MemFolder,
    from: &str,
    wanted: Result<usize, Failed>,
    content: &[u8],
) -> bool {
    copied(folder, from, "to") == wanted && folder.get("to") == Some(content)
}

// Past the room, then on the list of calls that fail, then done, and then without a file.
fn expect_copies(rt: &impl Abort, folder: &mut MemFolder) -> Result<(), AllocError> {
    folder.put("from", b"0123456789")?;
    folder.reserve("to", 9)?;
    assert!(rt; is_copied(folder, "from", Err(Failed), b""));
    folder.reserve("to", 10)?;
    folder.fail(Call::Write, 2)?;
    assert!(rt; is_copied(folder, "from", Err(Failed), b""));
    assert!(rt; is_copied(folder, "from", Ok(10), b"0123456789"));
    assert!(rt; is_copied(folder, "none", Err(Failed), b"0123456789"));
    Ok(())
}

#[test]
fn folder_in_memory(rt: HostRuntime) -> Result<(), Fail> {
    let mut folder = MemFolder::new(rt.alloc());
    expect_copies(&rt, &mut folder)?;
    Ok(())
}
