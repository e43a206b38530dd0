//! What becomes of an input after the first.
ghost use Rattle.std.specs.Prelude.{◌≡◌};
ghost use Rattle.seam_plan.specs.Seams.{left_out_count};

/// Which frames are left out at the front of an input.
#[derive(Clone, Copy, Debug, PartialEq, Eq)]
pub enum Seam {
    /// This many frames, because the input follows the one before it: they are the last frames of
    /// the splice, or before the first frame that is played.
    Follows(u32),
    /// One frame, a lead-in, because the frames after it have room after the splice.
    LeadIn,
    /// No frames.
    Whole,
}

impl Seam {
    /// How many frames are left out at the front of the input.
    pub fn left_out(self) -> u32
        ensures { result ≡ left_out_count self }
    {
        match self {
            Seam::Follows(frames) => frames,
            Seam::LeadIn => 1,
            Seam::Whole => 0,
        }
    }
}
