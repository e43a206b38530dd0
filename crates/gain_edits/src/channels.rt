//! Why one channel of a file can't change alone.
ghost use Rattle.std.specs.Prelude.{◌≡◌, ◌==◌};
ghost use Rattle.sync_survey.specs.Faults.{survey_view};
ghost use Rattle.gain_edits.specs.Channels.{are_both, joint_refusal, joint_fault, channel_fault};

use commands::Refusal;
use requests::{Channels, Shift};
use sync_survey::{Row, Survey};

/// The mode of joint stereo (ISO/IEC 11172-3, 2.4.2.3).
const JOINT: u8 = 1;

fn are_both(channels: Channels) -> bool
    ensures { result ≡ are_both channels }
{
    match channels {
        Channels::Both => true,
        Channels::Left | Channels::Right => false,
    }
}

/// The fault of a frame whose two channels are coded jointly.
fn joint_at(row: &Row) -> Option<Refusal>
    ensures { result ≡ joint_refusal row.now }
{
    if row.header().mode == JOINT {
        Some(Refusal::Joint(u64::from(row.offset())))
    } else {
        None
    }
}

/// The first frame whose two channels are coded jointly.
fn joint_fault(rows: &[Row]) -> Option<Refusal>
    ensures { result ≡ joint_fault rows.now }
{
    for row in rows {
        if let Some(fault) = joint_at(row) {
            return Some(fault);
        }
    }
    None
}

/// Why one channel alone can't change: `Mono` if the file has only one, otherwise `Joint` with the
/// offset in bytes of the first frame whose two channels are coded jointly. None if both are to
/// change.
pub(crate) fn channel_fault(shift: &Shift, survey: &Survey) -> Option<Refusal>
    ensures { result ≡ channel_fault shift.now (survey_view survey.now) }
{
    if are_both(shift.channels) {
        return None;
    }
    if survey.class().channels == 1 {
        return Some(Refusal::Mono);
    }
    joint_fault(survey.frames())
}
