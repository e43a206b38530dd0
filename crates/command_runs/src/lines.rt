//! What the lines of a row say.

/// A name, and what is after it.
pub fn parted(text: &'static str) -> (&'static str, &'static str) {
    text.split_once(' ').unwrap_or((text, ""))
}

/// What is after this prefix in the first line that has it.
pub fn said(row: &'static str, front: &str) -> Option<&'static str> {
    for line in row.lines() {
        if let Some(rest) = line.strip_prefix(front) {
            return Some(rest);
        }
    }
    None
}

/// What is after this prefix in the last line that has it.
pub fn last_said(row: &'static str, front: &str) -> Option<&'static str> {
    let mut last = None;
    for line in row.lines() {
        if let Some(rest) = line.strip_prefix(front) {
            last = Some(rest);
        }
    }
    last
}

/// Whether a line with this prefix names the file.
pub fn names_file(row: &'static str, front: &str, name: &str) -> bool {
    for line in row.lines() {
        if let Some(file) = line.strip_prefix(front) {
            if parted(file).0 == name {
                return true;
            }
        }
    }
    false
}

/// The names that a command may write, separated by blanks.
pub fn outputs_of(row: &'static str) -> &'static str {
    said(row, "to ").unwrap_or("o")
}
