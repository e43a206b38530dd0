//! What the lines of a sheet say together.
ghost use Rattle.std.specs.Prelude.{◌≡◌, ◌+◌, ◌<◌, ◌≤◌, ◌++◌, List, [], ◌∷◌};
ghost use Rattle.cue_sheet.specs.declared.entry.CueEntry.{CueEntry as EntryData};
ghost use Rattle.cue_sheet.specs.Cues.{IsSheetState, cue_fault_of, line_fault, is_later_start};

use crate::cue_fault::CueFault;
use crate::entry::CueEntry;

/// What the lines so far say together.
#[derive(Clone, Copy)]
pub(crate) struct SheetState {
    /// How many lines there have been.
    lines: u32,
    /// Whether a FILE line is among them.
    file: bool,
    /// How many TRACK lines are among them.
    tracks: u32,
    /// Whether there is a start after the last TRACK line.
    started: bool,
    /// The time of the last start.
    last: Option<u32>,
}

/// The fault `Line` with this line, or none.
fn line_fault(is: bool, line: u32) -> Option<CueFault>
    ensures { result ≡ line_fault is line }
{
    if is { Some(CueFault::Line(line)) } else { None }
}

/// Whether a start is later than the one before it.
fn is_rising(last: Option<u32>, time: u32) -> bool
    ensures { result ≡ is_later_start last time }
{
    match last {
        Some(last) => last < time,
        None => true,
    }
}

impl SheetState {
    /// Before the first line.
    pub(crate) fn new() -> SheetState
        ensures seen { IsSheetState [] result }
        ensures none { result.lines ≡ 0 }
        ensures tracks { result.tracks ≡ 0 }
    {
        SheetState {
            lines: 0,
            file: false,
            tracks: 0,
            started: false,
            last: None,
        }
    }

    /// The fault of the next line, or `None`.
    #[tactic(auto, unfolding(crate::specs::Cues::cue_fault_of))]
    pub(crate) fn fault(self, entry: CueEntry) -> Option<CueFault>
        requires { self.lines < 65537 }
        ensures { (before : List EntryData) → IsSheetState before self
            → result ≡ cue_fault_of before entry }
    {
        let line = self.lines + 1;
        match entry {
            CueEntry::Passed => None,
            CueEntry::File => line_fault(self.file, line),
            CueEntry::Track => line_fault(self.tracks >= 99, line),
            CueEntry::Index => line_fault(self.tracks == 0, line),
            CueEntry::Start(_) if self.tracks == 0 || self.started => Some(CueFault::Line(line)),
            CueEntry::Start(time) if is_rising(self.last, time) => None,
            CueEntry::Start(_) => Some(CueFault::NotRising(line)),
            CueEntry::Broken => Some(CueFault::Line(line)),
        }
    }

    /// What the lines say together with the next one.
    pub(crate) fn behind(self, entry: CueEntry) -> SheetState
        requires lines { self.lines < 65537 }
        requires tracks { self.tracks ≤ self.lines }
        ensures seen { (before : List EntryData) → IsSheetState before self
            → IsSheetState (before ++ entry ∷ []) result }
        ensures lines { result.lines ≡ self.lines + 1 }
        ensures tracks { result.tracks ≤ result.lines }
    {
        let next = SheetState {
            lines: self.lines + 1,
            ..self
        };
        match entry {
            CueEntry::Passed | CueEntry::Index | CueEntry::Broken => next,
            CueEntry::File => SheetState { file: true, ..next },
            CueEntry::Track => SheetState {
                tracks: next.tracks + 1,
                started: false,
                ..next
            },
            CueEntry::Start(time) => SheetState {
                started: true,
                last: Some(time),
                ..next
            },
        }
    }
}
