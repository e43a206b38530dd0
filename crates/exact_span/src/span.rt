//! The frames that a decoder needs for some positions.
ghost use Rattle.std.specs.Prelude.{◌≡◌, ◌<◌, ◌≤◌, ◌*◌};
ghost use Rattle.frame_header.specs.Limits.{most_frames};
ghost use Rattle.exact_span.specs.PlayedPositions.{samples_in};
ghost use Rattle.exact_span.specs.Spans.{span_of, IsSpan, AreLeads, delay_of, padding_of};

use crate::played::DECODER_DELAY;
use frame_header::Class;

/// How many positions before the first wanted one a decoder has to begin: it adds the second half
/// of each granule to the next (576), and its filterbank looks 15 steps of 32 samples back (480).
const WARM_UP: u64 = 1_056;

/// The frames from `first` to before `last`, for some positions of a file.
#[derive(Clone, Copy, Debug, PartialEq, Eq)]
pub struct Span {
    pub first: u32,
    pub last: u32,
    /// Whether there has to be a lead-in before the first frame.
    pub led: bool,
    /// How many positions of these frames are before the first wanted one.
    pub from: u32,
    /// How many positions of these frames are after the last wanted one.
    pub to: u32,
}

impl Span {
    /// The span of the positions from p to before q. Its first frame is the one in which the
    /// position 1,056 before p is, or the first of all, and its last the one in which position
    /// `q - 1` is. There has to be a lead-in before it if p is below 529, since players add 529 to
    /// a delay that is written.
    #[tactic(auto, unfolding(crate::specs::Spans::span_of))]
    pub fn of(class: Class, p: u64, q: u64) -> Span
        requires some { p < q }
        requires most { q ≤ most_frames * samples_in class }
        ensures span { result ≡ span_of class p q }
        ensures sound { IsSpan class result }
    {
        let samples = u64::from(class.samples());
        let first = p.saturating_sub(WARM_UP) / samples;
        let last = (q + samples - 1) / samples;
        Span {
            first: first as u32,
            last: last as u32,
            led: p < u64::from(DECODER_DELAY),
            from: (p - first * samples) as u32,
            to: (last * samples - q) as u32,
        }
    }

    /// The delay and the padding to be written, in samples, for the frames of the span after
    /// `leads` lead-ins: at most one, and one where there has to be one.
    pub fn numbers(&self, class: Class, leads: u32) -> (u16, u16)
        requires span { IsSpan class self.now }
        requires leads { AreLeads self.now leads }
        ensures delay { result.0 ≡ delay_of class leads self.now }
        ensures padding { result.1 ≡ padding_of self.now }
        ensures delay_most { result.0 ≤ 2830 }
        ensures padding_most { result.1 ≤ 1680 }
    {
        let delay = leads * class.samples() + self.from - DECODER_DELAY;
        (delay as u16, (self.to + DECODER_DELAY) as u16)
    }
}
