//! Gains moved in the bytes of a frame.
ghost use Rattle.std.specs.Prelude.{◌≡◌, ◌≤◌, length};
ghost use Rattle.frame_header.specs.Tables.{class_of};
ghost use Rattle.side_info.specs.Frame.{side_in, frame_with_side};
ghost use Rattle.moved_gains.specs.Gains.{moved_side};
ghost use Rattle.moved_gains.specs.Moving.{row_length, row_overhead, moved_bytes};
ghost use Rattle.frame_header.specs.Limits.{most_frame_length};

use crate::gains::moved_side;
use frame_header::{Class, Version};
use requests::Steps;
use side_info::put_gains;
use sync_survey::Row;

/// A frame, and by how many steps its gains move.
#[derive(Clone, Copy)]
pub(crate) struct MovedRow<'a> {
    pub row: &'a Row,
    pub steps: Steps,
}

/// The length in bytes of a frame of this class.
#[inline(always)]
pub(crate) fn frame_length(class: Class, row: &Row) -> u32
    requires { class_of row.now.header ≡ class }
    ensures length { result ≡ row_length row.now }
    ensures most { result ≤ most_frame_length }
    ensures room { row_overhead row.now ≤ result }
{
    class.length_of(row.front().slot())
}

/// Moves the gains in the front of a frame of this class, and makes the check word of a protected
/// frame match them.
#[inline(always)]
fn move_in_class(class: Class, steps: &Steps, row: &Row, front: &mut [u8])
    requires class { class_of row.now.header ≡ class }
    requires room { row_overhead row.now ≤ length front.old }
    ensures { side_in row.now.header front.old ≡ row.now.side → front.new ≡ frame_with_side
        row.now.header (moved_side steps.now row.now.side) front.old }
{
    let own = row.front();
    put_gains(own, class, &moved_side(steps, &own.side_in(class)), front);
}

/// Moves the gains in the front of a frame of this class in the same way; a lost frame stays as it
/// is. In MPEG-1 with two channels, the most frequent class, the compiler knows the places of the
/// gains.
#[inline(always)]
pub(crate) fn move_front(class: Class, steps: &Steps, row: &Row, front: &mut [u8])
    requires class { class_of row.now.header ≡ class }
    requires room { row_overhead row.now ≤ length front.old }
    ensures { side_in row.now.header front.old ≡ row.now.side →
        front.new ≡ moved_bytes steps.now row.now front.old }
{
    if row.lost() {
        return;
    }
    match (class.version, class.channels) {
        (Version::One, 2) => {
            let stereo = Class {
                version: Version::One,
                frequency_index: class.frequency_index,
                channels: 2,
            };
            move_in_class(stereo, steps, row, front);
        }
        _ => move_in_class(class, steps, row, front),
    }
}
