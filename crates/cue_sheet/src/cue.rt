//! Cue sheets.
ghost use Rattle.std.specs.Prelude.{◌≡◌, ◌≤◌, ◌++◌, ◌⊎◌, ◌∷◌, [], length, IfOk, OnOk, MatchResult, Ok, Err};
ghost use Rattle.cue_sheet.specs.declared.cue_fault.CueFault.TheVariants.{Memory};
ghost use Rattle.cue_sheet.specs.Cues.{places_of, cue_entries_from, cue_in, cue_of, AreStarts};
ghost use Rattle.cue_sheet.specs.Limits.{longest_sheet};

use crate::cue_fault::CueFault;
use crate::entry::{CueEntry, read_entry};
use crate::place::Place;
use crate::sheet_state::SheetState;
use crate::words::{line_at, without_mark};
use std::alloc::{AllocError, Global};
use std::marker::Model;

/// Keeps the time of a line that is a start.
///
/// # Errors
/// If out of memory.
fn keep_start(starts: &mut Vec<Place>, entry: CueEntry) -> Result<(), AllocError>
    ensures kept { OnOk result
        (starts.new.items ≡ starts.old.items ++ places_of (entry ∷ [])) }
{
    if let CueEntry::Start(time) = entry {
        starts.push(Place::Time(time, 75))?;
    }
    Ok(())
}

/// The starts of the tracks of a sheet without a byte order mark, or the first fault.
fn read_lines(alloc: Global, text: &[u8]) -> Result<Vec<Place>, CueFault>
    requires { length text.now ≤ longest_sheet }
    ensures cue { MatchResult result
        (λ starts. cue_in (cue_entries_from text.now 0) ≡ Ok starts.items)
        (λ fault. (fault ≡ Memory) ⊎ (cue_in (cue_entries_from text.now 0) ≡ Err fault)) }
    ensures rising { IfOk result (λ starts. AreStarts starts.items) }
    ensures some { IfOk result (λ starts. 1 ≤ length starts.items) }
    ensures most { IfOk result (λ starts. length starts.items ≤ 99) }
{
    let mut starts = Vec::new(alloc);
    let mut seen = SheetState::new();
    let mut at = 0;
    while at <= text.len() {
        let line = line_at(text, at);
        let entry = read_entry(line.line);
        if let Some(fault) = seen.fault(entry) {
            return Err(fault);
        }
        let Ok(()) = keep_start(&mut starts, entry) else {
            return Err(CueFault::Memory);
        };
        seen = seen.behind(entry);
        at = line.next;
    }
    if starts.is_empty() {
        return Err(CueFault::NoTracks);
    }
    Ok(starts)
}

/// The starts of the tracks of a cue sheet. In contracts it is the list of these positions.
#[derive(Drop)]
pub struct Cue {
    starts: Vec<Place>,
}

impl Model for Cue {
    ghost use Rattle.std.specs.Prelude.{List};
    ghost use Rattle.cue_sheet.specs.declared.place.Place.{Place as PlaceData};

    ghost Value = { List PlaceData };

    ghost view = { λ cue. cue.starts.items };
}

impl Cue {
    /// Reads a cue sheet of at most 65,536 bytes, and keeps where its tracks start. A byte order mark at
    /// its beginning is skipped. Lines end with a line feed or at the end of the sheet; a carriage return
    /// at a line's end is dropped. Words are separated by spaces and tabs, and keywords are compared
    /// ignoring ASCII case. The first word decides:
    ///
    /// - `FILE`: the rest of the line isn't read. At most one line is of this kind;
    /// - `TRACK`: one or two digits, from 1 to 99, and `AUDIO` follow. At most 99 lines are of this kind.
    ///   The numbers may repeat and fall;
    /// - `INDEX`: one or two digits follow, and a time `mm:ss:ff` of two to four digits, two of at most 59,
    ///   and two of at most 74, which count frames of 1/75 second. A `TRACK` line is before it, and at most
    ///   one `INDEX` line of a track has number 1: there the track starts. Each start is later than the one
    ///   before it;
    /// - any other line isn't read.
    ///
    /// A track without an index of number 1 has no start. There have to be 1 to 99 starts.
    ///
    /// # Errors
    /// The first line at fault, counted from 1: `Line` where it breaks its rule, `NotRising` where it is a
    /// start that isn't later than the one before it. `NoTracks` where no line is at fault and there is no
    /// start. `Memory` if out of memory.
    #[tactic(auto, unfolding(crate::specs::Cues::cue_of))]
    pub fn read(alloc: Global, bytes: &[u8]) -> Result<Cue, CueFault>
        requires { length bytes.now ≤ longest_sheet }
        ensures cue { MatchResult result
            (λ cue. cue_of bytes.now ≡ Ok cue)
            (λ fault. (fault ≡ Memory) ⊎ (cue_of bytes.now ≡ Err fault)) }
        ensures rising { IfOk result AreStarts }
        ensures some { IfOk result (λ cue. 1 ≤ length cue) }
        ensures most { IfOk result (λ cue. length cue ≤ 99) }
    {
        let starts = read_lines(alloc, without_mark(bytes))?;
        Ok(Cue { starts })
    }

    /// Where the tracks start, in their order: positions in parts of 1/75 second.
    pub fn starts(&self) -> &[Place]
        ensures { result.now ≡ self.now }
    {
        &self.starts
    }
}
