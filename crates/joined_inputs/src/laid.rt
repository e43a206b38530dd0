//! The frames of ranges of inputs, read in order and given to one writer.
ghost use Rattle.std.specs.Prelude.{◌≡◌, ◌≤◌, length};
ghost use Rattle.frame_header.specs.Tables.{window_of};
ghost use Rattle.laying.specs.Needs.{needs_of_parts};
ghost use Rattle.frame_writer.specs.Frames.{bytes_of_frames, reach_of};
ghost use Rattle.frame_writer.specs.Writing.{IsNewQueue};
ghost use Rattle.sync_survey.specs.Faults.{survey_view};
ghost use Rattle.laying.specs.Fits.{FitsFromReach};
ghost use Rattle.joined_inputs.specs.Laying.{AddsJoined};
ghost use Rattle.joined_inputs.specs.Ranges.{range_names, range_rows, laid_ranges, AreRangesWithin, IsRangePass};

use crate::ranges::LaidRanges;
use crate::stopped::Stopped;
use laying::{Relay, RelayBuffers};
use outside::{Folder, Pass};
use slot_plan::Placed;

/// Adds the frames of all ranges, 64 at most, in order and in these places of their plan, to what
/// waits for the output. The writer is new. The clauses about the output apply where the content of
/// the first input is known. It takes no memory.
///
/// # Errors
/// Those of `Relay::lay_range`, with the number of the range. Then a prefix of what waited and the
/// frames' bytes was appended, and with `Write` not all of them.
pub fn lay_all<D: Folder, R: LaidRanges + Copy>(
    first: &Relay<'_>,
    folder: &mut D,
    ranges: R,
    placed: &[Placed],
    buffers: &mut RelayBuffers,
) -> Result<(), Stopped>
    requires few { length (R.ranges ranges) ≤ 64 }
    requires pass { IsRangePass first.now (R.ranges ranges) (D.seen folder.old).files }
    requires within { AreRangesWithin (R.ranges ranges) }
    requires new { IsNewQueue (survey_view first.now.survey.now).class buffers.old.writer }
    requires fits { FitsFromReach (window_of (survey_view first.now.survey.now).class.version)
        (reach_of buffers.old.writer) (needs_of_parts (range_rows (R.ranges ranges)))
        placed.now }
    ensures { AddsJoined first.now (range_names (R.ranges ranges))
        (λ file. bytes_of_frames (laid_ranges (D.seen folder.old).files
        (R.ranges ranges) placed.now file))
        buffers.old.waiting buffers.new.waiting (D.seen folder.old) (D.seen folder.new) result }
{
    let mut at = 0;
    for i in 0..ranges.count() {
        let range = ranges.range(i);
        let pass = Pass {
            input: range.name,
            output: first.pass.output,
            length: range.survey.length(),
        };
        let relay = Relay {
            pass,
            survey: range.survey,
        };
        buffers.feed.clear();
        match relay.lay_range(folder, range.from, range.to, &placed[at..], buffers) {
            Ok(count) => at += count,
            Err(fault) => {
                return Err(Stopped {
                    number: i as u32,
                    fault,
                });
            }
        }
    }
    match first.finish(folder, &mut buffers.writer, &mut buffers.waiting) {
        Ok(()) => Ok(()),
        Err(fault) => Err(Stopped { number: 0, fault }),
    }
}
