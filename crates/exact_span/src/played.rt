//! The positions of a file that are played.
ghost use Rattle.std.specs.Prelude.{◌≡◌, ◌<◌, ◌≤◌, option_copied, IfSome};
ghost use Rattle.exact_span.specs.PlayedPositions.{counted_end, played_of, counted_positions, length_of_played, rest_of, AreCounted};

use crate::extensions::{HeadCounts, counts_of};
use frame_header::Class;
use info_header::Info;

/// The delay of a decoder in samples, as players reckon it.
pub(crate) const DECODER_DELAY: u32 = 529;

/// The positions from `start` to before `end`, counted in samples from the beginning of the first
/// frame after the head. Sample k of the file is position `start + k`.
#[derive(Clone, Copy, Debug, PartialEq, Eq)]
pub struct Played {
    pub start: u64,
    pub end: u64,
}

/// Where the played positions end, by what the head counts.
fn end_of(samples: u32, frames: u32, counts: HeadCounts) -> u64
    requires samples { samples ≤ 1152 }
    requires padding { counts.padding < 4096 }
    ensures { result ≡ counted_end samples frames counts }
{
    let all = u64::from(frames) * u64::from(samples);
    if counts.frames < frames {
        return all;
    }
    let counted = u64::from(counts.frames) * u64::from(samples);
    let end = (counted + u64::from(DECODER_DELAY)).saturating_sub(u64::from(counts.padding));
    all.min(end)
}

#[tactic(auto, unfolding(crate::specs::PlayedPositions::played_of, crate::specs::PlayedPositions::counted_positions))]
impl Played {
    /// The played positions of a file with this head and `frames` frames after it, as players reckon
    /// them. Without a head that counts, these are all positions. A head counts if it has a number of
    /// frames that isn't 0, and an extension that begins with `LAME`, `Lavf` or `Lavc`. Then they begin
    /// after its delay and the decoder's of 529 samples. Where it counts at least as many frames as
    /// there are, they end `padding` - 529 samples before the end of the frames that it counts, if that
    /// is earlier than the end of the last frame; otherwise they end with the last frame.
    pub fn of(info: Option<&Info>, class: Class, frames: u32) -> Played
        ensures { result ≡ played_of (option_copied info.entry) class frames }
    {
        match Played::counted(info, class, frames) {
            Some(played) => played,
            None => Played {
                start: 0,
                end: u64::from(frames) * u64::from(class.samples()),
            },
        }
    }

    /// The same where the head counts, otherwise `None`. They begin at 529 to 4,624, and at most 3,566
    /// positions are after them.
    pub fn counted(info: Option<&Info>, class: Class, frames: u32) -> Option<Played>
        ensures played { result ≡ counted_positions (option_copied info.entry) class frames }
        ensures counted { IfSome result (AreCounted class frames) }
    {
        let counts = counts_of(info)?;
        Some(Played {
            start: u64::from(counts.delay + DECODER_DELAY),
            end: end_of(class.samples(), frames, counts),
        })
    }

    /// How many samples are played: 0 where `end` isn't after `start`.
    pub fn length(&self) -> u64
        ensures { result ≡ length_of_played self.now }
    {
        self.end.saturating_sub(self.start)
    }

    /// How many positions of `frames` frames are after the last played one: none where the played ones
    /// end after the frames.
    pub fn rest(&self, class: Class, frames: u32) -> u64
        ensures { result ≡ rest_of class frames self.now }
    {
        (u64::from(frames) * u64::from(class.samples())).saturating_sub(self.end)
    }
}
