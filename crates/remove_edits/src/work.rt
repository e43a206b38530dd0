//! The pass that writes the file of the parts that stay.
ghost use Rattle.std.specs.Prelude.{◌≡◌, ◌≤◌, ℕ, [], length, map, IfErr, OnOk};
ghost use Rattle.frame_header.specs.Tables.{window_of};
ghost use Rattle.frame_writer.specs.Frames.{bytes_of_frames, reach_of};
ghost use Rattle.frame_writer.specs.Writing.{IsNewQueue};
ghost use Rattle.outside.specs.Pass.{AppendsMadeBytes, AppendsPrefix, WritesMadeBytes, WritesPrefix, route, HasPassCause};
ghost use Rattle.sync_survey.specs.Faults.{survey_view};
ghost use Rattle.laying.specs.Fits.{FitsFromReach};
ghost use Rattle.laying.specs.Needs.{needs_of_parts};
ghost use Rattle.laying.specs.Passing.{IsRelayReady};
ghost use Rattle.joined_inputs.specs.Ranges.{AreRangesWithin};
ghost use Rattle.remove_edits.specs.Removed.{part_rows_of};
ghost use Rattle.remove_edits.specs.Ready.{CanBeWritten, IsRemovalReady, laid_parts, part_range, parts_file, parts_front, removal_work_file};

use crate::ranges::LeftParts;
use arrayvec::ArrayVec;
use commands::OutputPass;
use joined_inputs::{JoinWork, lay_all};
use laying::{Relay, RelayBuffers};
use outside::{Folder, Pass, PassFault};
use seam_plan::Part;
use slot_plan::Placed;
use sync_survey::Survey;

/// The survey of the input, the parts of it that stay, and what the pass over them needs.
#[derive(Drop)]
pub(crate) struct RemovalWork {
    pub survey: Survey,
    pub parts: ArrayVec<Part, 51>,
    pub work: JoinWork,
}

/// Adds the frames of these parts, in these places of their plan, to what waits for the output.
///
/// # Errors
/// Those of `lay_all`.
fn lay_parts<D: Folder>(
    relay: &Relay<'_>,
    folder: &mut D,
    parts: &[Part],
    placed: &[Placed],
    buffers: &mut RelayBuffers,
) -> Result<(), PassFault>
    requires some { 1 ≤ length parts.now }
    requires few { length parts.now ≤ 51 }
    requires ready { IsRelayReady relay.now (D.seen folder.old).files buffers.old.feed }
    requires within { AreRangesWithin
        (map (part_range relay.now.pass.input.now (survey_view relay.now.survey.now)) parts.now) }
    requires new { IsNewQueue (survey_view relay.now.survey.now).class buffers.old.writer }
    requires fits { FitsFromReach (window_of (survey_view relay.now.survey.now).class.version)
        (reach_of buffers.old.writer)
        (needs_of_parts (map (part_rows_of (survey_view relay.now.survey.now)) parts.now))
        placed.now }
    ensures written { OnOk result (WritesMadeBytes relay.now.pass (λ file. bytes_of_frames
        (laid_parts (survey_view relay.now.survey.now) parts.now placed.now file))
        buffers.old.waiting buffers.new.waiting (D.seen folder.old).files
        (D.seen folder.new).files) }
    ensures prefix { IfErr result (WritesPrefix relay.now.pass (λ file. bytes_of_frames
        (laid_parts (survey_view relay.now.survey.now) parts.now placed.now file))
        buffers.old.waiting (D.seen folder.old).files (D.seen folder.new).files) }
    ensures done { OnOk result ((D.seen folder.new).counts ≡ (D.seen folder.old).counts) }
    ensures cause { IfErr result (λ fault. (size : ℕ) × HasPassCause
        (route relay.now.pass.input.now relay.now.pass.output.now size)
        (D.seen folder.old).files (D.seen folder.old).counts (D.seen folder.new).counts fault) }
{
    let left = LeftParts {
        name: relay.pass.input,
        survey: relay.survey,
        parts,
    };
    match lay_all(relay, folder, left, placed, buffers) {
        Ok(()) => Ok(()),
        Err(stopped) => Err(stopped.fault),
    }
}

/// Adds the blocks before the frames, the Info frame, and the frames of these parts, in the places of
/// their plan, to what waits for the output.
///
/// # Errors
/// Those of `lay_all`.
fn write_parts<D: Folder>(
    relay: &Relay<'_>,
    folder: &mut D,
    parts: &[Part],
    work: &mut JoinWork,
) -> Result<(), PassFault>
    requires ready { IsRelayReady relay.now (D.seen folder.old).files work.old.buffers.feed }
    requires parts { CanBeWritten relay.now parts.now work.old }
    ensures written { OnOk result (WritesMadeBytes relay.now.pass
        (parts_front (survey_view relay.now.survey.now) parts.now work.old)
        work.old.buffers.waiting work.new.buffers.waiting (D.seen folder.old).files
        (D.seen folder.new).files) }
    ensures prefix { IfErr result (WritesPrefix relay.now.pass
        (parts_front (survey_view relay.now.survey.now) parts.now work.old)
        work.old.buffers.waiting (D.seen folder.old).files (D.seen folder.new).files) }
    ensures done { OnOk result ((D.seen folder.new).counts ≡ (D.seen folder.old).counts) }
    ensures cause { IfErr result (λ fault. (size : ℕ) × HasPassCause
        (route relay.now.pass.input.now relay.now.pass.output.now size)
        (D.seen folder.old).files (D.seen folder.old).counts (D.seen folder.new).counts fault) }
{
    let JoinWork {
        plan,
        info,
        buffers,
    } = work;
    relay.write_front(
        folder,
        info.as_slice(),
        &mut buffers.feed,
        &mut buffers.waiting,
    )?;
    lay_parts(relay, folder, parts, plan.placed(), buffers)
}

/// Appends to the output the file of these parts. It takes no memory.
///
/// # Errors
/// Those of `lay_all`. Then a prefix of the file was appended, and with `Write` not all of it.
fn write_left<D: Folder>(
    relay: &Relay<'_>,
    folder: &mut D,
    parts: &[Part],
    work: &mut JoinWork,
) -> Result<(), PassFault>
    requires ready { IsRelayReady relay.now (D.seen folder.old).files work.old.buffers.feed }
    requires parts { CanBeWritten relay.now parts.now work.old }
    requires none { work.old.buffers.waiting ≡ [] }
    ensures written { OnOk result
        (AppendsMadeBytes relay.now.pass.input.now relay.now.pass.output.now
        (parts_file (survey_view relay.now.survey.now) parts.now work.old)
        (D.seen folder.old).files (D.seen folder.new).files) }
    ensures prefix { IfErr result
        (AppendsPrefix relay.now.pass.input.now relay.now.pass.output.now
        (parts_file (survey_view relay.now.survey.now) parts.now work.old)
        (D.seen folder.old).files (D.seen folder.new).files) }
    ensures done { OnOk result ((D.seen folder.new).counts ≡ (D.seen folder.old).counts) }
    ensures cause { IfErr result (λ fault. (size : ℕ) × HasPassCause
        (route relay.now.pass.input.now relay.now.pass.output.now size)
        (D.seen folder.old).files (D.seen folder.old).counts (D.seen folder.new).counts fault) }
{
    write_parts(relay, folder, parts, work)?;
    let buffers = &mut work.buffers;
    buffers.feed.clear();
    relay.copy_blocks(folder, false, &mut buffers.feed, &mut buffers.waiting)?;
    relay.pass.finish(folder, &mut buffers.waiting)
}

impl OutputPass for RemovalWork {
    ghost file_of = { λ work. removal_work_file work };

    ghost IsReady = { λ work input files. IsRemovalReady input work files };

    fn append<D: Folder>(
        &mut self,
        folder: &mut D,
        input: &str,
        output: &str,
    ) -> Result<(), PassFault> {
        let RemovalWork {
            survey,
            parts,
            work,
        } = self;
        let pass = Pass {
            input,
            output,
            length: survey.length(),
        };
        write_left(&Relay { pass, survey }, folder, parts.as_slice(), work)
    }
}
