//! The lines of the text.
ghost use Rattle.std.specs.Prelude.{◌≡◌};
ghost use Rattle.salvage.specs.Text.{line_text, count_text};

use list_edits::Line;
use salvage::{Emptied, Gap};
use sync_survey::Entry;

/// Sets the text to the line of a gap, or of a frame that becomes an empty one.
pub(crate) fn set_line(line: &mut Line, told: &Entry<Gap, Emptied>)
    ensures { line.new ≡ line_text told.now }
{
    line.clear();
    match told {
        Entry::First(gap) => {
            line.put_counted(gap.length, b" bytes\n");
            line.put_counted(gap.offset, b": ");
            line.put(b"gap at ");
        }
        Entry::Second(emptied) => {
            line.put_counted(u64::from(emptied.offset), b"\n");
            line.put_counted(u64::from(emptied.number), b" at ");
            line.put(b"empty frame ");
        }
    }
}

/// Sets the text to the last line, with the numbers of frames, gaps and empty frames.
pub(crate) fn set_counts(line: &mut Line, frames: u64, gaps: u64, empty: u64)
    ensures { line.new ≡ count_text frames gaps empty }
{
    line.clear();
    line.put_counted(empty, b" empty\n");
    line.put_counted(gaps, b" gaps, ");
    line.put_counted(frames, b" frames, ");
}
