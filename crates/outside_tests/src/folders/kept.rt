//! A folder that keeps what is there, over one in memory and over one whose files are shorter than it says.

use outside::{Call, Failed, Folder, KeptFolder, MemFolder, ShortFolder, read_full};
use std::alloc::{AllocError, Global};
use std::test::Fail;

/// A folder with the file `a` and with room for `o`. The second question whether a name is there fails, and the third call that
/// creates a file.
fn prepared(alloc: Global) -> Result<MemFolder, AllocError> {
    let mut folder = MemFolder::new(alloc);
    folder.put("a", b"kept")?;
    folder.reserve("o", 8)?;
    folder.fail(Call::There, 2)?;
    folder.fail(Call::Create, 3)?;
    Ok(folder)
}

fn length_read<D: Folder>(folder: &mut D, name: &str) -> Result<usize, Failed> {
    let mut bytes = [0; 8];
    folder.find(name)?;
    read_full(folder, name, 0, &mut bytes)
}

fn are_told<D: Folder>(folder: &mut D) -> bool {
    folder.keeps()
        && length_read(folder, "a") == Ok(4)
        && folder.there("a") == Ok(true)
        && folder.there("o") == Err(Failed)
        && folder.there("o") == Ok(false)
}

/// Makes a file of two bytes.
#[tactic(auto, using(outside::proofs::FilesLemmas::emptied_there))]
fn made<D: Folder>(folder: &mut D, name: &str) -> Result<usize, Failed> {
    folder.create(name)?;
    folder.write(name, b"ab")
}

/// The calls that fail because of what is there count too: it is the third one that is to fail.
fn are_made<D: Folder>(folder: &mut D) -> bool {
    made(folder, "a") == Err(Failed)
        && folder.create_new("a") == Err(Failed)
        && made(folder, "o") == Err(Failed)
        && made(folder, "o") == Ok(2)
        && made(folder, "o") == Err(Failed)
        && made(folder, "none") == Err(Failed)
}

fn is_kept<D: Folder>(folder: &mut D) -> bool {
    let mut kept = KeptFolder::new(folder);
    are_told(&mut kept) && are_made(&mut kept)
}

#[test]
fn a_folder_that_keeps(rt: HostRuntime) -> Result<(), Fail> {
    let mut folder = prepared(rt.alloc())?;
    assert!(rt; !folder.keeps() && is_kept(&mut folder));
    assert!(rt; folder.get("a") == Some(b"kept".as_slice()));
    assert!(rt; folder.get("o") == Some(b"ab".as_slice()));
    Ok(())
}

#[test]
fn a_shorter_folder_that_keeps(rt: HostRuntime) -> Result<(), Fail> {
    let mut folder = ShortFolder::new(prepared(rt.alloc())?, 5);
    assert!(rt; !folder.keeps() && is_kept(&mut folder));
    assert!(rt; folder.get("a") == Some(b"kept".as_slice()));
    assert!(rt; folder.get("o") == Some(b"ab".as_slice()));
    Ok(())
}
