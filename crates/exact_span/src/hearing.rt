//! Which played positions of a file are heard, and where, when some of its frames are written.
ghost use Rattle.std.specs.Prelude.{◌≡◌, ◌≤◌, ◌*◌};
ghost use Rattle.exact_span.specs.Heard.{first_to_last, heard_in, heard_of, joined_heard, place_in};

use crate::played::Played;
use crate::written::{Heard, WrittenFrames};
use frame_header::Class;

/// Where a position of these frames is in what is written.
fn place_in(samples: u64, written: WrittenFrames, position: u64) -> u64
    requires samples { samples ≤ 1152 }
    requires first { written.from * samples ≤ position }
    requires last { position ≤ written.to * samples }
    ensures { result ≡ place_in samples written position }
{
    u64::from(written.at) * samples + (position - u64::from(written.from) * samples)
}

/// Where the played positions of these frames are in what is written, if there are any.
#[tactic(auto, unfolding(crate::specs::Heard::first_to_last))]
fn heard_in(samples: u64, played: &Played, written: WrittenFrames) -> Option<Heard>
    requires { samples ≤ 1152 }
    ensures { result ≡ first_to_last (heard_in samples played.now written) }
{
    let first = played.start.max(u64::from(written.from) * samples);
    let end = played.end.min(u64::from(written.to) * samples);
    if first >= end {
        return None;
    }
    Some(Heard {
        first: place_in(samples, written, first),
        end: place_in(samples, written, end),
    })
}

/// From the beginning of some to the end of others that are after them, if there are any of both.
fn joined(some: Option<Heard>, others: Option<Heard>) -> Option<Heard>
    ensures { result ≡ joined_heard some others }
{
    let Some(some) = some else {
        return others;
    };
    let Some(others) = others else {
        return Some(some);
    };
    Some(Heard {
        first: some.first,
        end: others.end,
    })
}

/// Where the heard positions are in what is written, from the first to the last: those of the
/// `played` positions of a file whose frames are written. `written` has the frames in the order in
/// which they are written; frames of what is written that it doesn't name, such as lead-ins, aren't
/// heard. `None` exactly if no position is heard. It takes no memory.
pub fn heard(played: &Played, class: Class, written: &[WrittenFrames]) -> Option<Heard>
    ensures { result ≡ heard_of class played.now written.now }
{
    let samples = u64::from(class.samples());
    let mut heard = None;
    for frames in written {
        heard = joined(heard, heard_in(samples, played, *frames));
    }
    heard
}
