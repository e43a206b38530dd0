//! The points of an envelope and of its curve.
ghost use Rattle.std.specs.Prelude.{◌≡◌, ◌≤◌, map, None, neg_ℤ, unsigned_abs};
ghost use Rattle.std.specs.List.{All};
ghost use Rattle.std.specs.List.Sorted.{IsNonDecreasingBy};
ghost use Rattle.fade_plan.specs.Points.{IsKeptPoint, placed_point, first_not_rising};

use cue_sheet::Place;
use frame_header::Class;

/// A point, and the frame that its position is before. An envelope becomes a curve without
/// allocating, so the curve takes over its list, and both have points of this one type.
#[derive(Clone, Copy)]
pub(crate) struct Point {
    /// The frame that the position is before; 0 in an envelope.
    pub(crate) frame: u64,
    pub(crate) place: Place,
    /// The line in which it is, counted from 1.
    pub(crate) line: u32,
    /// Steps of 1.5 dB, from -255 to 255.
    pub(crate) steps: i16,
}

/// The steps with the opposite sign.
pub(crate) fn opposite_steps(steps: i16) -> i16
    requires { unsigned_abs steps ≤ 255 }
    ensures steps { result ≡ neg_ℤ steps }
    ensures most { unsigned_abs result ≤ 255 }
{
    -steps
}

/// Gives every point its frame.
pub(crate) fn place_all(points: &mut [Point], class: Class, frames: u32)
    requires { All IsKeptPoint points.old }
    ensures placed { points.new ≡ map (placed_point class frames) points.old }
    ensures kept { All IsKeptPoint points.new }
{
    for point in points.iter_mut() {
        point.frame = point.place.frame_of(class, frames);
    }
}

/// The line of the first point whose frame isn't greater than the frame of the point before.
pub(crate) fn first_not_rising(points: &[Point]) -> Option<u32>
    ensures line { result ≡ first_not_rising points.now }
    ensures rising { result ≡ None → IsNonDecreasingBy (λ point. point.frame) points.now }
{
    let mut next = 1;
    while next < points.len() {
        if points[next].frame <= points[next - 1].frame {
            return Some(points[next].line);
        }
        next += 1;
    }
    None
}
