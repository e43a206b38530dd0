//! Gains of one frame, moved by steps of 1.5 dB.
ghost use Rattle.std.specs.Prelude.{◌≡◌, ◌+ℤ◌, ◌<◌, ◌&&◌, not, pos};
ghost use Rattle.moved_gains.specs.Gains.{is_silent_granule, is_out_of_range, moved_granule, moved_side, gain_out_of_range, side_out_of_range};

use requests::Steps;
use side_info::{Granule, Side};

/// A gain that would leave the range from 0 to 255: its granule and its channel, counted from 0, and the
/// gain.
#[derive(Clone, Copy, Debug, PartialEq, Eq)]
pub struct OutOfRange {
    pub granule: u8,
    pub channel: u8,
    pub gain: u8,
}

/// The gain moved by `steps` steps, which may leave the range from 0 to 255.
fn sum(steps: i16, gain: u8) -> i32
    ensures { result ≡ pos gain +ℤ steps }
{
    i32::from(gain) + i32::from(steps)
}

/// The granule with its gain moved modulo 256; a silent one stays.
fn moved(steps: i16, granule: Granule) -> Granule
    ensures { result ≡ moved_granule steps granule }
{
    let mut moved = granule;
    if granule.part2_3_length != 0 {
        moved.global_gain = sum(steps, granule.global_gain).rem_euclid(256) as u8;
    }
    moved
}

/// The gains of channel 0 and channel 1 moved by their steps; all other fields stay.
#[tactic(auto, unfolding(crate::specs::Gains::moved_side))]
#[inline(always)]
pub(crate) fn moved_side(steps: &Steps, side: &Side) -> Side
    ensures { result ≡ moved_side steps.now side.now }
{
    let [[a, b], [c, d]] = side.granules;
    let Steps { left, right, .. } = *steps;
    Side {
        granules: [
            [moved(left, a), moved(right, b)],
            [moved(left, c), moved(right, d)],
        ],
        ..*side
    }
}

/// Whether the gain would leave the range from 0 to 255.
#[inline(always)]
fn goes_out_of_range(steps: i16, granule: &Granule) -> bool
    ensures { result ≡ (not (is_silent_granule granule.now)
        && is_out_of_range (pos granule.now.global_gain +ℤ steps)) }
{
    // Few gains leave the range, so for most of them the length isn't read.
    !(0..=255).contains(&sum(steps, granule.global_gain)) && granule.part2_3_length != 0
}

/// The gain of this granule and channel, if it would leave the range from 0 to 255.
#[inline(always)]
fn out_of_range_at(steps: i16, side: &Side, granule: u8, channel: u8) -> Option<OutOfRange>
    requires granule { granule < 2 }
    requires channel { channel < 2 }
    ensures { result ≡ gain_out_of_range steps side.now granule channel }
{
    let found = &side.granules[granule as usize][channel as usize];
    if !goes_out_of_range(steps, found) {
        return None;
    }
    Some(OutOfRange {
        granule,
        channel,
        gain: found.global_gain,
    })
}

#[tactic(auto, unfolding(crate::specs::Gains::side_out_of_range))]
#[inline(always)]
/// The first gain that would leave the range from 0 to 255, in order of granules and channels; `None` with
/// wrap.
pub fn first_out_of_range(steps: &Steps, side: &Side) -> Option<OutOfRange>
    ensures { result ≡ side_out_of_range steps.now side.now }
{
    if steps.wrap {
        return None;
    }
    let Steps { left, right, .. } = *steps;
    if let Some(stuck) = out_of_range_at(left, side, 0, 0) {
        return Some(stuck);
    }
    if let Some(stuck) = out_of_range_at(right, side, 0, 1) {
        return Some(stuck);
    }
    if let Some(stuck) = out_of_range_at(left, side, 1, 0) {
        return Some(stuck);
    }
    out_of_range_at(right, side, 1, 1)
}
