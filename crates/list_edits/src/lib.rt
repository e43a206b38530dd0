//! The commands that send a text of one file: `list`, what it holds, and `info`, what it is in a few lines.
#![tactic(auto)]

mod file_text;
mod info_file;
mod info_lines;
mod leading_digits;
mod line;
mod lines;
mod list_file;
mod rate_text;
mod things;
mod totals;

pub use info_file::info;
pub use line::Line;
pub use list_file::list;
