//! How far a command got before a failing call ended it.

use crate::lines::parted;
use crate::stop::Stop;
use outside::MemFolder;
use std::alloc::Global;
use test_files::texts::{Named, bytes_of_words};

/// How far the outputs were written, with the number of bytes in all: each is whole; or they are whole up to one, of which a prefix
/// is there, with nothing after it; or neither.
#[derive(Clone, Copy)]
pub enum Progress {
    Whole(usize),
    Part(usize),
    Neither,
}

/// The progress with one more output.
fn progressed(progress: Progress, found: &[u8], wanted: &[u8]) -> Progress {
    match progress {
        Progress::Whole(count) if found == wanted => {
            Progress::Whole(count.saturating_add(found.len()))
        }
        Progress::Whole(count) if wanted.starts_with(found) => {
            Progress::Part(count.saturating_add(found.len()))
        }
        Progress::Part(count) if found.is_empty() => Progress::Part(count),
        _ => Progress::Neither,
    }
}

fn progress_with(
    alloc: Global,
    folder: &MemFolder,
    names: &[Named],
    file: &'static str,
    progress: Progress,
) -> Result<Progress, Stop> {
    let (name, words) = parted(file);
    let wanted = bytes_of_words(alloc, names, words)?;
    Ok(progressed(progress, folder.get(name).unwrap_or(&[]), &wanted))
}

fn progress_of_files(
    alloc: Global,
    folder: &MemFolder,
    names: &[Named],
    row: &'static str,
) -> Result<Progress, Stop> {
    let mut progress = Progress::Whole(0);
    for line in row.lines() {
        if let Some(file) = line.strip_prefix("> ") {
            progress = progress_with(alloc, folder, names, file, progress)?;
        }
    }
    Ok(progress)
}

/// How far the outputs of the row were written, with the text as the last of them.
pub fn progress_of(
    alloc: Global,
    folder: &MemFolder,
    names: &[Named],
    row: &'static str,
    sent: &[u8],
    text: &[u8],
) -> Result<Progress, Stop> {
    let files = progress_of_files(alloc, folder, names, row)?;
    Ok(progressed(files, sent, text))
}
