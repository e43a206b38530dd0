//! The files of a row after its command.

use crate::differences::{Found, bytes_differ};
use crate::lines::{names_file, outputs_of, parted};
use crate::stop::{Stop, none_of};
use outside::MemFolder;
use std::alloc::Global;
use test_files::texts::{Named, bytes_of_words};

/// How a file differs from what a line says of it.
fn found_in_file(
    alloc: Global,
    folder: &MemFolder,
    names: &[Named],
    file: &'static str,
) -> Result<Option<Found>, Stop> {
    let (name, words) = parted(file);
    let wanted = bytes_of_words(alloc, names, words)?;
    Ok(match folder.get(name) {
        Some(found) => bytes_differ(name, found, &wanted),
        None => Some(Found::of("no file", name)),
    })
}

fn compare_file(
    alloc: Global,
    folder: &MemFolder,
    names: &[Named],
    file: &'static str,
) -> Result<(), Stop> {
    none_of(found_in_file(alloc, folder, names, file)?)
}

/// Compares the files that are there after the last command.
fn compare_made(
    alloc: Global,
    folder: &MemFolder,
    names: &[Named],
    row: &'static str,
) -> Result<(), Stop> {
    for line in row.lines() {
        if let Some(file) = line.strip_prefix("> ") {
            compare_file(alloc, folder, names, file)?;
        }
    }
    Ok(())
}

/// Compares the files that have to stay: those that no line with one of these prefixes names.
pub fn compare_kept(
    alloc: Global,
    folder: &MemFolder,
    names: &[Named],
    row: &'static str,
    fronts: &[&'static str],
) -> Result<(), Stop> {
    for line in row.lines() {
        if let Some(file) = line.strip_prefix("< ") {
            if !is_named(row, fronts, parted(file).0) {
                compare_file(alloc, folder, names, file)?;
            }
        }
    }
    Ok(())
}

/// Whether a line with one of these prefixes names the file.
fn is_named(row: &'static str, fronts: &[&'static str], name: &str) -> bool {
    for front in fronts {
        if names_file(row, front, name) {
            return true;
        }
    }
    false
}

/// Looks for a file that should have changed but still has the bytes of the row.
fn compare_others(
    alloc: Global,
    folder: &MemFolder,
    names: &[Named],
    row: &'static str,
) -> Result<(), Stop> {
    for line in row.lines() {
        if let Some(file) = line.strip_prefix("~ ") {
            if found_in_file(alloc, folder, names, file)?.is_none() {
                return Err(Stop::Found(Found::of("the same bytes", parted(file).0)));
            }
        }
    }
    Ok(())
}

fn expect_absent(folder: &MemFolder, name: &'static str) -> Result<(), Stop> {
    match folder.get(name) {
        Some(_) => Err(Stop::Found(Found::of("a file", name))),
        None => Ok(()),
    }
}

fn compare_absent(folder: &MemFolder, row: &'static str) -> Result<(), Stop> {
    for line in row.lines() {
        if let Some(name) = line.strip_prefix("- ") {
            expect_absent(folder, name)?;
        }
    }
    Ok(())
}

/// Looks for an output that is there although no line of a file names it.
pub fn compare_outputs(folder: &MemFolder, row: &'static str, front: &str) -> Result<(), Stop> {
    for name in outputs_of(row).split_ascii_whitespace() {
        let is_named = names_file(row, "< ", name) || names_file(row, front, name);
        if !is_named && !names_file(row, "~ ", name) {
            expect_absent(folder, name)?;
        }
    }
    Ok(())
}

/// Compares the folder with the folder before the command. Every file has to stay.
pub fn compare_before(
    alloc: Global,
    folder: &MemFolder,
    names: &[Named],
    row: &'static str,
) -> Result<(), Stop> {
    compare_kept(alloc, folder, names, row, &[])?;
    compare_absent(folder, row)?;
    compare_outputs(folder, row, "no line has it")
}

/// Compares the folder with what the row says of it after the last command.
pub fn compare_folder(
    alloc: Global,
    folder: &MemFolder,
    names: &[Named],
    row: &'static str,
) -> Result<(), Stop> {
    compare_made(alloc, folder, names, row)?;
    compare_kept(alloc, folder, names, row, &["> ", "~ "])?;
    compare_others(alloc, folder, names, row)?;
    compare_absent(folder, row)?;
    compare_outputs(folder, row, "> ")
}
