//! How the volume is to change.
ghost use Rattle.std.specs.Prelude.{◌≡◌};
ghost use Rattle.requests.specs.Shifts.{left_steps_of, right_steps_of, steps_of};

/// The channels whose volume changes.
#[derive(Clone, Copy, Debug, PartialEq, Eq)]
pub enum Channels {
    /// Every channel there is.
    Both,
    /// The left channel alone.
    Left,
    /// The right channel alone.
    Right,
}

/// A change of volume.
#[derive(Clone, Copy, Debug, PartialEq, Eq)]
pub struct Shift {
    /// The channels that change.
    pub channels: Channels,
    /// Steps of 1.5 dB, from -255 to 255 on the command line: positive is louder, negative quieter.
    pub steps: i16,
    /// Whether gains wrap around modulo 256. Without it, a gain that would leave the range from 0 to 255 is
    /// refused.
    pub wrap: bool,
}

/// By how many steps of 1.5 dB the gains of each channel move.
#[derive(Clone, Copy, Debug, PartialEq, Eq)]
pub struct Steps {
    /// The steps of channel 0.
    pub left: i16,
    /// The steps of channel 1.
    pub right: i16,
    /// Whether gains wrap around modulo 256 where they would leave the range from 0 to 255.
    pub wrap: bool,
}

impl Shift {
    fn left(&self) -> i16
        ensures { result ≡ left_steps_of self.now.channels self.now.steps }
    {
        match self.channels {
            Channels::Both | Channels::Left => self.steps,
            Channels::Right => 0,
        }
    }

    fn right(&self) -> i16
        ensures { result ≡ right_steps_of self.now.channels self.now.steps }
    {
        match self.channels {
            Channels::Both | Channels::Right => self.steps,
            Channels::Left => 0,
        }
    }

    /// The steps of each channel.
    pub fn each(&self) -> Steps
        ensures { result ≡ steps_of self.now }
    {
        Steps {
            left: self.left(),
            right: self.right(),
            wrap: self.wrap,
        }
    }
}
