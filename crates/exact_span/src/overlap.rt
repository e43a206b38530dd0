//! The frames that two files share, where the second continues where the first ends.
ghost use Rattle.std.specs.Prelude.{◌≡◌, ◌≤◌, IfSome};
ghost use Rattle.exact_span.specs.PlayedPositions.{decoder_delay, latest_start, longest_rest};
ghost use Rattle.exact_span.specs.Overlaps.{shared_overlap, IsOverlap, IsOverlapShort};

use frame_header::Class;

/// The first frames of a file that are also the last frames of the file before it.
#[derive(Clone, Copy, Debug, PartialEq, Eq)]
pub struct Overlap {
    /// How many frames are shared.
    pub frames: u32,
    /// The first of them that has to be alike in both files. What a decoder makes of the frames before
    /// it isn't played.
    pub first_alike: u32,
}

/// The frames that are shared if position `start` of a file with `frames` frames is where the played
/// positions of the file before it end, `rest` positions before the end of its last frame. `start` has
/// to be at least 529, as in every file whose head counts. `None` exactly where the first `start + rest`
/// positions aren't whole frames, or are more than there are.
#[tactic(auto, unfolding(crate::specs::Overlaps::shared_overlap))]
pub fn shared(class: Class, rest: u64, start: u64, frames: u32) -> Option<Overlap>
    requires late { decoder_delay ≤ start }
    ensures shared { result ≡ shared_overlap class rest start frames }
    ensures overlap { IfSome result IsOverlap }
    ensures within { IfSome result (λ o. o.frames ≤ frames) }
    ensures short { start ≤ latest_start → rest ≤ longest_rest
        → IfSome result (IsOverlapShort class) }
{
    let samples = u64::from(class.samples());
    // A greater sum is more frames than any file has.
    let sum = start.checked_add(rest)?;
    let shared = sum / samples;
    if sum % samples != 0 || shared > u64::from(frames) {
        return None;
    }
    let first_alike = (start / samples).min(shared - 1);
    Some(Overlap {
        frames: shared as u32,
        first_alike: first_alike as u32,
    })
}
