//! By how many steps each frame of a file moves.
ghost use Rattle.std.specs.Prelude.{◌≡◌};
ghost use Rattle.moved_gains.specs.Course.{equal_steps, course_steps};

use fade_plan::Curve;
use requests::Steps;

/// The same steps for both channels, without wrap.
fn alike(steps: i16) -> Steps
    ensures { result ≡ equal_steps steps }
{
    Steps {
        left: steps,
        right: steps,
        wrap: false,
    }
}

/// By how many steps of 1.5 dB the gains of each frame of a file move.
#[derive(Drop)]
pub enum Course {
    /// Every frame by the same steps.
    Even(Steps),
    /// Each frame by the steps that the curve has for it, both channels alike and without wrap. With `true`
    /// the steps have the opposite sign.
    Along(Curve, bool),
}

impl Course {
    /// The steps of a frame, counted from 0. `near` doesn't change them: it is 0 at first, and
    /// makes a curve faster when it is asked for frames in order (`Curve::steps_near`). It takes no
    /// memory.
    #[inline]
    pub fn steps(&self, frame: u32, near: &mut usize) -> Steps
        ensures { result ≡ course_steps self.now frame }
    {
        match self {
            Course::Even(steps) => *steps,
            Course::Along(curve, back) => alike(curve.steps_near(frame, *back, near)),
        }
    }
}
