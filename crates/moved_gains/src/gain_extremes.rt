//! The least and the greatest of the gains that move.
ghost use Rattle.std.specs.Prelude.{◌≡◌, ◌<◌, [], IfNone, IfSome};
ghost use Rattle.frame_header.specs.Tables.{class_of};
ghost use Rattle.side_info.specs.Side.{granule_in};
ghost use Rattle.moved_gains.specs.GainExtremes.{gain_that_moves, side_gains, row_gains, moving_gains, extremes, extremes_of, joined_extremes, HasChannel, AreExtremes};

use frame_header::{Class, Version};
use side_info::Side;
use sync_survey::Row;

/// The least and the greatest of some gains.
#[derive(Clone, Copy, Debug, PartialEq, Eq)]
pub struct Gains {
    pub least: u8,
    pub greatest: u8,
}

/// The least and the greatest of two sets of gains together. `None` means that there is no gain.
#[inline(always)]
pub fn joined(some: Option<Gains>, others: Option<Gains>) -> Option<Gains>
    ensures { result ≡ joined_extremes some others }
{
    let Some(some) = some else {
        return others;
    };
    let Some(others) = others else {
        return Some(some);
    };
    Some(Gains {
        least: some.least.min(others.least),
        greatest: some.greatest.max(others.greatest),
    })
}

/// The gain of this granule and channel; `None` if it is silent.
#[tactic(auto, unfolding(crate::specs::GainExtremes::extremes))]
#[inline(always)]
fn gain_of(side: &Side, granule: u8, channel: u8) -> Option<Gains>
    requires granule { granule < 2 }
    requires channel { channel < 2 }
    ensures { result ≡ extremes (gain_that_moves (granule_in side.now granule channel)) }
{
    let found = &side.granules[granule as usize][channel as usize];
    if found.part2_3_length == 0 {
        return None;
    }
    let gain = found.global_gain;
    Some(Gains {
        least: gain,
        greatest: gain,
    })
}

/// The least and the greatest gain of a channel, counted from 0, in a frame that isn't lost and has
/// this side information. `None` if the channel is silent in both granules, as any channel is that
/// the class lacks.
#[inline(always)]
pub fn gains_in(side: &Side, channel: u8) -> Option<Gains>
    requires { channel < 2 }
    ensures { result ≡ extremes (side_gains channel side.now) }
{
    joined(gain_of(side, 0, channel), gain_of(side, 1, channel))
}

/// The least and the greatest gain of a channel in a frame of this class, as if it weren't lost.
#[inline(always)]
fn gains_in_class(class: Class, row: &Row, channel: u8) -> Option<Gains>
    requires class { class_of row.now.header ≡ class }
    requires channel { channel < 2 }
    ensures { result ≡ extremes (side_gains channel row.now.side) }
{
    gains_in(&row.front().side_in(class), channel)
}

/// The least and the greatest gain of a channel in a frame of this class; a lost frame has none. In
/// MPEG-1 with two channels, the most frequent class, the compiler knows the places of the gains.
#[tactic(auto, unfolding(crate::specs::GainExtremes::extremes))]
#[inline(always)]
fn gains_at(class: Class, row: &Row, channel: u8) -> Option<Gains>
    requires class { class_of row.now.header ≡ class }
    requires channel { channel < 2 }
    ensures { result ≡ extremes (row_gains channel row.now) }
{
    if row.lost() {
        return None;
    }
    match (class.version, class.channels) {
        (Version::One, 2) => gains_in_class(class.known_stereo(), row, channel),
        _ => gains_in_class(class, row, channel),
    }
}

/// The least and the greatest gain of a channel, counted from 0, over all granules with main data
/// in the frames that aren't lost: the gains that a change of gains moves. `None` if no gain moves.
/// It takes no memory.
pub fn gains_of(rows: &[Row], channel: u8) -> Option<Gains>
    requires { HasChannel channel rows.now }
    ensures value { result ≡ extremes_of channel rows.now }
    ensures some { IfSome result (AreExtremes (moving_gains channel rows.now)) }
    ensures none { IfNone result (moving_gains channel rows.now ≡ []) }
{
    let Some(first) = rows.first() else {
        return None;
    };
    let class = first.front().class();
    let mut gains = None;
    for row in rows {
        gains = joined(gains, gains_at(class, row, channel));
    }
    gains
}
