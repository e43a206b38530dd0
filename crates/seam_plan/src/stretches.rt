//! The parts of a file that stay when stretches of its frames are taken out.
ghost use Rattle.std.specs.Prelude.{◌≡◌, ◌≤◌, ◌+◌, ◌++◌, length, Ok, Err, MatchResult, IfOk};
ghost use Rattle.seam_plan.specs.Stretches.{AreInOrder, part_between, staying_parts};

use arrayvec::ArrayVec;

/// The frames from number `from` to before number `to`, counted from 0.
#[derive(Clone, Copy, Debug, Default, PartialEq, Eq)]
pub struct Part {
    pub from: u32,
    pub to: u32,
}

/// Adds the frames from number `from` to before number `to`, if there is one.
fn add_part(parts: &mut ArrayVec<Part, 51>, from: u32, to: u32)
    requires { length parts.old.items ≤ 50 }
    ensures added { parts.new.items ≡ parts.old.items ++ part_between from to }
    ensures few { length parts.new.items ≤ length parts.old.items + 1 }
{
    if from < to {
        parts.push(Part { from, to });
    }
}

/// The longest ranges of frames that stay of a file of `frames` frames when stretches are taken out
/// of it, in order. A stretch is the number of its first frame and the number of the first frame
/// after it, both counted from 0. There are at most 50 stretches. They may touch, and then are one
/// stretch.
///
/// # Errors
///
/// The first two neighbours among the numbers of the stretches that aren't in order:
///
/// - the numbers of a stretch, if it has no frame or ends after the last frame of the file;
/// - where a stretch ends and where the next begins, if this is before it.
///
/// If all are in order and no frame stays, 0 and `frames`.
pub fn parts_that_stay(
    stretches: &[(u64, u64)],
    frames: u32,
) -> Result<ArrayVec<Part, 51>, (u64, u64)>
    requires { length stretches.now ≤ 50 }
    ensures parts { MatchResult result
        (λ parts. staying_parts frames stretches.now ≡ Ok parts.items)
        (λ pair. staying_parts frames stretches.now ≡ Err pair) }
    ensures some { IfOk result (λ parts.
        (1 ≤ length parts.items) × AreInOrder 0 frames parts.items) }
{
    let mut parts = ArrayVec::new();
    let mut before = 0;
    for &(from, to) in stretches {
        if from < u64::from(before) {
            return Err((u64::from(before), from));
        }
        if from >= to || to > u64::from(frames) {
            return Err((from, to));
        }
        add_part(&mut parts, before, from as u32);
        before = to as u32;
    }
    add_part(&mut parts, before, frames);
    if parts.is_empty() {
        return Err((0, u64::from(frames)));
    }
    Ok(parts)
}
