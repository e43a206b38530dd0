//! Laws of the curves of fades. Each function does nothing: a proof that needs its law calls it.
ghost use Rattle.gain_laws.specs.CurveLaws.{CurvesGoEvenly, CurvesStayWithin, OppositeCurves};

/// The frames of a curve's points rise. A curve has the steps of the first point before that point's frame and the
/// steps of the last point from that point's frame on; from the frame of any other point to the frame of the next it
/// goes evenly from the steps of the one to the steps of the other, rounded toward zero.
pub fn curves_go_evenly()
    ensures { CurvesGoEvenly }
{}

/// A curve goes no further up and no further down from 0 steps than its points do, and with only one point it has the
/// steps of that point at every frame.
pub fn curves_stay_within()
    ensures { CurvesStayWithin }
{}

/// An envelope whose steps have the opposite sign has a curve if the envelope has one, otherwise the same line doesn't
/// rise; its curve gives every frame the opposite steps. Gains that the one moves are moved back by the other.
pub fn opposite_curves()
    ensures { OppositeCurves }
{}
