//! Which frames of a file are chosen, and how they are laid.
ghost use Rattle.std.specs.Prelude.{◌≡◌, ◌<◌, ◌≤◌, Ok, Err, MatchResult, IfOk, IfErr};
ghost use Rattle.cut_edits.specs.Chosen.{chosen_in, chosen_range, cut_refuses};
ghost use Rattle.commands.specs.AfterCall.{IsEditRefusal};

use commands::{EditFault, Refusal};
use laying::Kept;

/// The frames from `from` up to, but not including, `to`, counted from 0, and the quality and extension for the Info frame
/// before them.
#[derive(Drop)]
pub struct Chosen {
    pub from: usize,
    pub to: usize,
    pub kept: Kept,
}

/// The frames from `from` up to, but not including, `to`, counted from 0, of a file of `frames`
/// frames: `Range` if there is none between them, or `to` is greater than `frames`.
pub fn choose(from: u64, to: u64, frames: usize, kept: Kept) -> Result<Chosen, EditFault>
    ensures chosen { MatchResult result
        (λ chosen. chosen_range kept.quality kept.extension from to frames
        ≡ Ok (chosen_in chosen))
        (λ fault. chosen_range kept.quality kept.extension from to frames ≡ Err fault) }
    ensures some { IfOk result (λ chosen. chosen.from < chosen.to) }
    ensures within { IfOk result (λ chosen. chosen.to ≤ frames) }
    ensures refusal { IfErr result (IsEditRefusal cut_refuses) }
{
    let all = frames as u64;
    if from < to && to <= all {
        Ok(Chosen {
            from: from as usize,
            to: to as usize,
            kept,
        })
    } else {
        Err(Refusal::Range(from, to, all).into())
    }
}
