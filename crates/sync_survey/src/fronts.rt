//! The front of a file.
ghost use Rattle.std.specs.Prelude.{◌≡◌, ℕ, List, ◌+◌, ◌++◌, [], ◌≤◌, IfOk, IfErr, OnOk, option_to_list};
ghost use Rattle.outside.specs.Seen.{OnFile};
ghost use Rattle.outside.specs.Feed.{IsFedFrom};
ghost use Rattle.sync_survey.specs.Chains.{item_chain, block_of_item, blocks_of};
ghost use Rattle.sync_survey.specs.Start.{front_end_of};
ghost use Rattle.sync_survey.specs.SurveyFaultKinds.{IsFromOutside};
ghost use Rattle.sync_survey.specs.Survey.{HasLength, ReadsBy, IsEarlyRefusal, BlocksAreLaid};

use crate::chains::{Region, step_at};
use crate::items::Item;
use crate::looks::look;
use crate::places::Piece;
use crate::survey_fault::SurveyFault;
use outside::{Feed, Folder};
use std::alloc::AllocError;

/// Keeps the item if it is a block.
///
/// # Errors
/// If memory runs out.
pub(crate) fn keep_block(
    pieces: &mut Vec<Piece>,
    offset: u64,
    item: &Item,
) -> Result<(), AllocError>
    ensures { OnOk result (pieces.new.items ≡ pieces.old.items ++ option_to_list
        (block_of_item offset item.now)) }
{
    if let Item::Block(block) = *item {
        pieces.push(Piece { offset, block })?;
    }
    Ok(())
}

/// Goes past the front of the file, which is the blocks and zero bytes with which it begins, keeps
/// the blocks, and returns the offset at which the front ends.
///
/// # Errors
/// `Read` or `Shrunk` if the file can't be read, `Memory` if memory runs out.
pub fn pass_front<D: Folder>(
    feed: &mut Feed,
    folder: &mut D,
    name: &str,
    size: u64,
    pieces: &mut Vec<Piece>,
) -> Result<u64, SurveyFault>
    requires known { HasLength (D.seen folder.old).files name.now size }
    requires fed { IsFedFrom feed.old (D.seen folder.old).files name.now }
    requires none { pieces.old.items ≡ [] }
    ensures front_end { IfOk result (λ at. OnFile (D.seen folder.old) name.now
        (λ bytes. at ≡ front_end_of bytes)) }
    ensures blocks { OnOk result (OnFile (D.seen folder.old) name.now
        (λ bytes. pieces.new.items ≡ blocks_of (item_chain Region.Front bytes 0).items)) }
    ensures laid { IfOk result (λ at. BlocksAreLaid 0 pieces.new.items at) }
    ensures within { IfOk result (λ at. at ≤ size) }
    ensures reads { ReadsBy feed.new name.now result (D.seen folder.old) (D.seen folder.new) }
    ensures refused { IfErr result (IsEarlyRefusal name.now (D.seen folder.old)
        (D.seen folder.new)) }
    ensures outside { IfErr result IsFromOutside }
{
    let mut at = 0;
    while at < size {
        let left = look(feed, folder, name, size, at)?;
        let Some(step) = step_at(Region::Front, feed.bytes(), left) else {
            return Ok(at);
        };
        keep_block(pieces, at, &step.item)?;
        at += step.size;
    }
    Ok(at)
}
