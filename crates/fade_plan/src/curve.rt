//! Curves: the steps of every frame.
ghost use Rattle.std.specs.Prelude.{◌≡◌, ◌<◌, ◌≤◌, ◌*◌, ◌^◌, ◌*ℤ◌, pos, int_div, length, map, true, false, nat_le, unsigned_abs};
ghost use Rattle.std.specs.List.{All, AllWithin};
ghost use Rattle.std.specs.List.Sorted.{IsNonDecreasingBy, IsPartitionPoint};
ghost use Rattle.fade_plan.specs.Points.{IsKeptPoint, curve_point_of};
ghost use Rattle.fade_plan.specs.Curves.{steps_at, steps_between, steps_back};

use crate::point::{Point, opposite_steps};
use std::marker::Model;

/// How many points are at or before the frame.
fn count_up_to(points: &[Point], frame: u64) -> usize
    requires { IsNonDecreasingBy (λ point. point.frame) points.now }
    ensures parted { IsPartitionPoint
        (λ point. nat_le point.frame frame ≡ true) (λ point. nat_le point.frame frame ≡ false)
        points.now result }
    ensures within { result ≤ length points.now }
{
    points.partition_point(|point| point.frame <= frame)
}

/// Whether the first `count` points are all at or before the frame.
fn all_up_to(points: &[Point], frame: u64, count: usize) -> bool
    requires rising { IsNonDecreasingBy (λ point. point.frame) points.now }
    requires within { count ≤ length points.now }
    ensures { result ≡ true →
        AllWithin (λ point. nat_le point.frame frame ≡ true) points.now 0 count }
{
    if count == 0 {
        return true;
    }
    points[count - 1].frame <= frame
}

/// Whether all points after the first `count` are after the frame.
fn all_after(points: &[Point], frame: u64, count: usize) -> bool
    requires rising { IsNonDecreasingBy (λ point. point.frame) points.now }
    requires within { count ≤ length points.now }
    ensures { result ≡ true →
        AllWithin (λ point. nat_le point.frame frame ≡ false) points.now count (length points.now) }
{
    if count == points.len() {
        return true;
    }
    frame < points[count].frame
}

/// How many points are at or before the frame. `near` is tried first, which saves the search if it is
/// right.
#[inline]
fn count_from_hint(points: &[Point], frame: u64, near: usize) -> usize
    requires { IsNonDecreasingBy (λ point. point.frame) points.now }
    ensures parted { IsPartitionPoint
        (λ point. nat_le point.frame frame ≡ true) (λ point. nat_le point.frame frame ≡ false)
        points.now result }
    ensures within { result ≤ length points.now }
{
    if near <= points.len() && all_up_to(points, frame, near) && all_after(points, frame, near) {
        near
    } else {
        count_up_to(points, frame)
    }
}

/// Steps times frames.
fn weighted(steps: i16, frames: u64) -> i64
    requires small { unsigned_abs steps ≤ 255 }
    requires few { frames < 2 ^ 48 }
    ensures { result ≡ steps *ℤ pos frames }
{
    i64::from(steps) * frames as i64
}

/// A sum of steps times frames, divided by the number of all these frames, and rounded toward zero.
fn rounded_steps(sum: i64, frames: u64) -> i16
    requires some { 0 < frames }
    requires few { frames < 2 ^ 48 }
    requires small { unsigned_abs sum ≤ 255 * frames }
    ensures steps { result ≡ int_div sum (pos frames) }
    ensures most { unsigned_abs result ≤ 255 }
{
    (sum / frames as i64) as i16
}

/// The steps of a frame that is at or after one point and before another.
fn steps_of_both(before: &Point, behind: &Point, frame: u64) -> i16
    requires kept { IsKeptPoint before.now }
    requires behind_kept { IsKeptPoint behind.now }
    requires before { before.now.frame ≤ frame }
    requires behind { frame < behind.now.frame }
    ensures steps { result
        ≡ steps_between (curve_point_of before.now) (curve_point_of behind.now) frame }
    ensures most { unsigned_abs result ≤ 255 }
{
    let left = weighted(before.steps, behind.frame - frame);
    let passed = weighted(behind.steps, frame - before.frame);
    rounded_steps(left + passed, behind.frame - before.frame)
}

/// The steps of a frame, where `count` points are at or before it.
#[inline]
fn steps_at(points: &[Point], frame: u64, count: usize) -> i16
    requires kept { All IsKeptPoint points.now }
    requires parted { IsPartitionPoint
        (λ point. nat_le point.frame frame ≡ true) (λ point. nat_le point.frame frame ≡ false)
        points.now count }
    requires within { count ≤ length points.now }
    ensures steps { result ≡ steps_at (map curve_point_of points.now) frame }
    ensures most { unsigned_abs result ≤ 255 }
{
    let (up_to, behind) = points.split_at(count);
    match (up_to.last(), behind.first()) {
        (Some(before), Some(behind)) => steps_of_both(before, behind, frame),
        (Some(last), None) => last.steps,
        (None, Some(first)) => first.steps,
        (None, None) => 0,
    }
}

/// By how many steps of 1.5 dB the gains of each frame of a stream move. In contracts it is the list of its
/// points: frame and steps.
#[derive(Drop)]
pub struct Curve {
    points: Vec<Point>,
}

impl Model for Curve {
    ghost use Rattle.std.specs.Prelude.{List, map};
    ghost use Rattle.std.specs.List.{All};
    ghost use Rattle.std.specs.List.Sorted.{IsNonDecreasingBy};
    ghost use Rattle.fade_plan.specs.Curves.{CurvePoint};
    ghost use Rattle.fade_plan.specs.Points.{IsKeptPoint, curve_point_of};

    ghost Value = { List CurvePoint };

    ghost view = { λ curve. map curve_point_of curve.points.items };

    ghost invariant = { λ curve.
        All IsKeptPoint curve.points.items
        × IsNonDecreasingBy (λ point. point.frame) curve.points.items };
}

impl Curve {
    /// The curve of points whose frames are known and rise.
    pub(crate) fn of(points: Vec<Point>) -> Curve
        requires kept { All IsKeptPoint points.items }
        requires rising { IsNonDecreasingBy (λ point. point.frame) points.items }
        ensures { result ≡ map curve_point_of points.items }
    {
        Curve { points }
    }

    /// By how many steps of 1.5 dB the gains of this frame move, from -255 to 255: before the first point
    /// by its steps, from the last point's frame on by the steps of the last, and between two points evenly
    /// from the one to the other, rounded toward zero. With `back` the steps have the opposite sign. It
    /// allocates nothing.
    pub fn steps(&self, frame: u32, back: bool) -> i16
        ensures steps { result ≡ steps_back back (steps_at self.now frame) }
        ensures most { unsigned_abs result ≤ 255 }
    {
        self.steps_near(frame, back, &mut 0)
    }

    /// The same, but faster for frames in order: `near` is how many points were at or before the frame of
    /// the last call, and becomes that number for this frame. With any other number the steps are the same.
    #[inline]
    pub fn steps_near(&self, frame: u32, back: bool, near: &mut usize) -> i16
        ensures steps { result ≡ steps_back back (steps_at self.now frame) }
        ensures most { unsigned_abs result ≤ 255 }
    {
        let frame = u64::from(frame);
        *near = count_from_hint(&self.points, frame, *near);
        let steps = steps_at(&self.points, frame, *near);
        if back { opposite_steps(steps) } else { steps }
    }
}
