//! The folder of a row before its command: the files that are there, the room of the outputs, and the calls that are to fail.

use crate::differences::Found;
use crate::lines::{outputs_of, parted, said};
use crate::running::{put, reserve};
use crate::stop::Stop;
use outside::{Call, MemFolder};
use std::alloc::Global;
use test_files::texts::{Named, bytes_of_words, number_of};

fn put_file(
    alloc: Global,
    folder: &mut MemFolder,
    names: &[Named],
    file: &'static str,
) -> Result<(), Stop> {
    let (name, words) = parted(file);
    let bytes = bytes_of_words(alloc, names, words)?;
    Ok(put(folder, name, &bytes)?)
}

fn put_files(
    alloc: Global,
    folder: &mut MemFolder,
    names: &[Named],
    row: &'static str,
) -> Result<(), Stop> {
    for line in row.lines() {
        if let Some(file) = line.strip_prefix("< ") {
            put_file(alloc, folder, names, file)?;
        }
    }
    Ok(())
}

fn reserve_outputs(folder: &mut MemFolder, row: &'static str) -> Result<(), Stop> {
    let room = number_of(said(row, "room ").unwrap_or("200000"))?;
    for name in outputs_of(row).split_ascii_whitespace() {
        reserve(folder, name, room as u64)?;
    }
    Ok(())
}

/// Puts the files of the row into the folder, and makes room for the outputs. `Memory` if memory runs out; `Found` with a word that
/// stands for no bytes.
pub fn prepare(
    alloc: Global,
    folder: &mut MemFolder,
    names: &[Named],
    row: &'static str,
) -> Result<(), Stop> {
    put_files(alloc, folder, names, row)?;
    reserve_outputs(folder, row)
}

/// The call of the folder that is of this kind, or `None` for a
/// write to standard output. `Found` where there is no such kind.
pub fn call_of(kind: &'static str) -> Result<Option<Call>, Stop> {
    match kind {
        "Find" => Ok(Some(Call::Find)),
        "Read" => Ok(Some(Call::Read)),
        "There" => Ok(Some(Call::There)),
        "Create" => Ok(Some(Call::Create)),
        "Write" => Ok(Some(Call::Write)),
        "Send" => Ok(None),
        _ => Err(Stop::Found(Found::word(kind))),
    }
}

/// Makes a call of the folder fail. For a write to
/// standard output it returns which of them is to fail.
pub fn fail_call(
    folder: &mut MemFolder,
    call: Option<Call>,
    number: u64,
) -> Result<Option<u64>, Stop> {
    match call {
        Some(call) => {
            folder.fail(call, number)?;
            Ok(None)
        }
        None => Ok(Some(number)),
    }
}

/// Makes the calls of the row fail. Returns which write to standard output is to fail.
pub fn fail_calls(folder: &mut MemFolder, row: &'static str) -> Result<Option<u64>, Stop> {
    let mut sending = None;
    for line in row.lines() {
        if let Some(failing) = line.strip_prefix("fail ") {
            let (kind, number) = parted(failing);
            sending = sending.or(fail_call(folder, call_of(kind)?, number_of(number)? as u64)?);
        }
    }
    Ok(sending)
}
