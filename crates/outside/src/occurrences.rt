//! How often something happened, and to which file it last did.
ghost use Rattle.std.specs.Prelude.{◌≡◌, ◌≤◌, length};
ghost use Rattle.outside.specs.Counts.{no_occurrence, one_occurrence_more, noted_name};
ghost use Rattle.outside.specs.Feed.{most_given};

use std::marker::Model;

// How many bytes of a name are kept: no system allows a longer one.
const LONGEST: usize = 4096;

/// How often something happened, and the name of the file that it last happened to. It takes no
/// memory.
#[derive(Drop)]
pub(crate) struct Occurrences {
    times: u64,
    // The name is in the first `length` bytes.
    name: [u8; LONGEST],
    length: usize,
}

impl Model for Occurrences {
    ghost use Rattle.std.specs.Prelude.{◌≤◌, take};
    ghost use Rattle.outside.specs.Counts.{Happened};

    ghost Value = { Happened };

    ghost view = { λ o. record { times = o.times; name = take o.length o.name } };

    ghost invariant = { λ o. o.length ≤ 4096 };
}

impl Occurrences {
    pub fn none() -> Self
        ensures { result ≡ no_occurrence }
    {
        Occurrences {
            times: 0,
            name: [0; LONGEST],
            length: 0,
        }
    }

    /// It happened once more, to the file with this name.
    pub fn add(&mut self, name: &str)
        ensures counted { self.new ≡ one_occurrence_more name.now self.old }
        ensures later { self.old.times ≤ self.new.times }
    {
        self.times = self.times.saturating_add(1);
        let front = front_of(name);
        self.length = front.len();
        self.name[..front.len()].copy_from_slice(front);
    }
}

// The first bytes of a name, as many as are kept.
#[tactic(auto, using(std::proofs::lemmas::List::take_min))]
fn front_of(name: &str) -> &[u8]
    ensures front { result.now ≡ noted_name name.now }
    ensures few { length result.now ≤ most_given }
{
    let bytes = name.as_bytes();
    &bytes[..LONGEST.min(bytes.len())]
}
