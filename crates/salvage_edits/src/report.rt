//! What is missing in a damaged file.
ghost use Rattle.std.specs.Prelude.{◌≡◌, ◌<◌, [], OnOk, OnErr};
ghost use Rattle.outside.specs.Files.{sent_and_more};
ghost use Rattle.outside.specs.BufferOutput.{SentPrefix};
ghost use Rattle.outside.specs.Counts.{HasCause};
ghost use Rattle.salvage_edits.specs.Ordered.{IsReportInOrder, report_text};

use crate::lines::{set_counts, set_line};
use list_edits::Line;
use outside::{Failed, SendBuffer, Sink};
use salvage::{Emptied, Gap};
use sync_survey::Merge;

/// What is missing: the gaps, and the frames that become empty ones, each in order of offset.
#[derive(Drop)]
pub(crate) struct Report {
    pub gaps: Vec<Gap>,
    pub emptied: Vec<Emptied>,
}

/// Sends a line for each gap and each frame that becomes an empty one, in order of offset, and a
/// last one with the numbers of frames, gaps and empty frames. It takes no memory.
///
/// # Errors
/// If a write failed. Then a prefix of the text was sent.
pub(crate) fn send_report<T: Sink>(
    report: &Report,
    frames: u64,
    buffer: &mut SendBuffer,
    out: &mut T,
) -> Result<(), Failed>
    requires order { IsReportInOrder report.now }
    requires empty { buffer.old ≡ [] }
    ensures sent { OnOk result ((T.heard out.new).sent ≡ sent_and_more (T.heard out.old).sent
        (report_text frames report.now)) }
    ensures prefix { OnErr result (SentPrefix (report_text frames report.now) (T.heard out.old).sent
        (T.heard out.new).sent) }
    ensures cause { HasCause (T.heard out.old).faults (T.heard out.new).faults result }
{
    let gaps = report.gaps.as_slice();
    let emptied = report.emptied.as_slice();
    let mut line = Line::new();
    let mut lines = Merge::new(gaps, emptied);
    while let Some(told) = lines.next() {
        set_line(&mut line, &told);
        buffer.push(out, line.bytes())?;
    }
    set_counts(&mut line, frames, gaps.len() as u64, emptied.len() as u64);
    buffer.push(out, line.bytes())?;
    buffer.finish(out)
}
