//! Frames that are written again, and the numbers with which players play what is heard of them.
ghost use Rattle.std.specs.Prelude.{◌≡◌, ◌<◌, IfSome};
ghost use Rattle.exact_span.specs.Heard.{heard_numbers};

use crate::played::DECODER_DELAY;
use frame_header::Class;

/// The greatest number of 12 bits.
const MOST: u64 = 4_095;

/// Frames of a file that are written one after another: those from `from` to before `to`, counted
/// from 0, the first of them as frame `at` of what is written.
#[derive(Clone, Copy, Debug, Default, PartialEq, Eq)]
pub struct WrittenFrames {
    pub from: u32,
    pub to: u32,
    pub at: u32,
}

/// Where the heard positions are in what is written, in samples from its beginning: the first, and
/// the one after the last.
#[derive(Clone, Copy, Debug, PartialEq, Eq)]
pub struct Heard {
    pub first: u64,
    pub end: u64,
}

impl Heard {
    /// The delay and the padding, in samples, with which players play the `frames` frames that are
    /// written from the first heard position to the last. No delay says less than the 529 samples
    /// of the decoder, which players add: where the first heard position is one of the first 529,
    /// the delay is 0, and players skip what is before position 529. `None` exactly if one of the
    /// two numbers has more than 12 bits.
    #[tactic(auto, unfolding(crate::specs::Heard::heard_numbers))]
    pub fn numbers(&self, class: Class, frames: u32) -> Option<(u16, u16)>
        ensures numbers { result ≡ heard_numbers class frames self.now }
        ensures most { IfSome result (λ n. (n.0 < 4096) × (n.1 < 4096)) }
    {
        let delay = self.first.saturating_sub(u64::from(DECODER_DELAY));
        let all = u64::from(frames) * u64::from(class.samples());
        let padding = all.saturating_sub(self.end) + u64::from(DECODER_DELAY);
        if delay > MOST || padding > MOST {
            return None;
        }
        Some((delay as u16, padding as u16))
    }
}
