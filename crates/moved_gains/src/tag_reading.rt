//! The tag of a file, read.
ghost use Rattle.std.specs.Prelude.{◌≡◌, ℕ, ◌+◌, ◌^◌, ◌≤◌, ◌<◌, List, length, take, drop, Some, None, Ok, Err, IfOk, IfErr, OnOk};
ghost use Rattle.outside.specs.Counts.{OnlyReads};
ghost use Rattle.outside.specs.Seen.{OnFile};
ghost use Rattle.sync_survey.specs.Faults.{survey_view};
ghost use Rattle.tag_blocks.specs.declared.block.Kind.TheVariants.{Ape};
ghost use Rattle.tag_blocks.specs.Blocks.{block_front};
ghost use Rattle.moved_gains.specs.TagExtent.{tag_block, tag_length};
ghost use Rattle.moved_gains.specs.TagReading.{empty_tag, longest_tag, tag_of_block, file_tag, IsSurveyedFile, HasTagBlock, IsTagCause, IsBlockCause};

use crate::tag_extents::first_tag;
use crate::tag_fault::FileTagFault;
use outside::{Folder, read_exact};
use std::alloc::Global;
use sync_survey::{Piece, Survey};
use tag_blocks::{Kind, LONGEST_TAG, Tag, TagFault, block_at};

/// The bytes of the block of the file's tag.
///
/// # Errors
/// `Memory` or `Read`, as `read_tag` says.
fn read_block<D: Folder>(
    alloc: Global,
    folder: &mut D,
    name: &str,
    survey: &Survey,
    piece: &Piece,
) -> Result<Vec<u8>, FileTagFault>
    requires found { HasTagBlock name.now (D.seen folder.old).files (survey_view survey.now)
        piece.now }
    requires few { piece.now.block.length ≤ longest_tag }
    ensures length { IfOk result (λ block. length block.items ≡ piece.now.block.length) }
    ensures bytes { IfOk result (λ block. OnFile (D.seen folder.old) name.now
        (λ bytes. block.items ≡ take piece.now.block.length (drop piece.now.offset bytes))) }
    ensures done { OnOk result ((D.seen folder.new).counts ≡ (D.seen folder.old).counts) }
    ensures cause { IfErr result
        (IsTagCause name.now (D.seen folder.old).files (survey_view survey.now)
        (D.seen folder.old).counts (D.seen folder.new).counts) }
    ensures files { (D.seen folder.new).files ≡ (D.seen folder.old).files }
    ensures counts { OnlyReads (D.seen folder.old).counts (D.seen folder.new).counts }
{
    let mut block = vec![in alloc; 0; piece.block.length as usize]?;
    read_exact(folder, name, survey.length(), piece.offset, &mut block)?;
    Ok(block)
}

/// The tag of a block at this offset of a file.
///
/// # Errors
/// `Bad` with the offset in the file of the first fault in the block, or with the offset of the
/// block if its bytes aren't an APEv2 block of exactly their length: a file that changed since its
/// survey may hold any. `Memory` if memory runs out.
fn tag_at_offset(alloc: Global, offset: u64, block: &[u8]) -> Result<Tag, FileTagFault>
    requires few { length block.now ≤ longest_tag }
    requires place { offset + length block.now ≤ 2 ^ 62 }
    ensures tag { IfOk result (λ tag. block_front block.now ≡ Some
        (record { kind = Ape; length = length block.now })
        → tag_of_block offset block.now ≡ Ok tag) }
    ensures cause { IfErr result (IsBlockCause offset block.now) }
    ensures elsewhere { (block_front block.now ≡ Some
        (record { kind = Ape; length = length block.now }) → ⊥)
        → result ≡ Err (FileTagFault.Bad offset) }
{
    match block_at(block) {
        Some(front) if matches!(front.kind, Kind::Ape) && front.length == block.len() as u64 => {
            match Tag::read(alloc, block) {
                Ok(tag) => Ok(tag),
                Err(TagFault::BadTag(place)) => Err(FileTagFault::Bad(offset + place)),
                Err(TagFault::Memory) => Err(FileTagFault::Memory),
            }
        }
        _ => Err(FileTagFault::Bad(offset)),
    }
}

/// The tag in this block of the file.
///
/// # Errors
/// As `read_tag` says.
fn read_piece<D: Folder>(
    alloc: Global,
    folder: &mut D,
    name: &str,
    survey: &Survey,
    piece: &Piece,
) -> Result<Tag, FileTagFault>
    requires { HasTagBlock name.now (D.seen folder.old).files (survey_view survey.now) piece.now }
    ensures exact { IfOk result (λ tag. OnFile (D.seen folder.old) name.now
        (λ bytes. file_tag bytes (survey_view survey.now) ≡ Ok tag)) }
    ensures large { longest_tag < piece.now.block.length
        → result ≡ Err (FileTagFault.TooLarge piece.now.block.length) }
    ensures done { OnOk result ((D.seen folder.new).counts ≡ (D.seen folder.old).counts) }
    ensures cause { IfErr result
        (IsTagCause name.now (D.seen folder.old).files (survey_view survey.now)
        (D.seen folder.old).counts (D.seen folder.new).counts) }
    ensures files { (D.seen folder.new).files ≡ (D.seen folder.old).files }
    ensures counts { OnlyReads (D.seen folder.old).counts (D.seen folder.new).counts }
{
    if piece.block.length > LONGEST_TAG {
        return Err(FileTagFault::TooLarge(piece.block.length));
    }
    let block = read_block(alloc, folder, name, survey, piece)?;
    tag_at_offset(alloc, piece.offset, &block)
}

/// The tag of a file: what `Tag::read` returns for its first APEv2 block, or `Tag::new` if there is
/// none. The file has to be there, and the survey has to be its own. The files stay as they are.
///
/// # Errors
/// In this order, and none if the file has no tag:
/// - `TooLarge` with the length of the block, before any byte is read, if it is longer than 1,048,576 bytes;
/// - `Memory` if memory runs out for the block's bytes;
/// - `Read(Failed)` if a call failed;
/// - `Read(Shrunk)` with the survey's length and the offset at which a read gave no byte, before
///   the end of the block. It occurs only in a folder whose contents aren't known;
/// - `Bad` with the offset in the file of the first fault that `Tag::read` finds, or with the
///   offset of the block if no such block is there any more, which occurs only in a folder whose
///   contents aren't known;
/// - `Memory` if memory runs out for the tag's items.
pub fn read_tag<D: Folder>(
    alloc: Global,
    folder: &mut D,
    name: &str,
    survey: &Survey,
) -> Result<Tag, FileTagFault>
    requires { IsSurveyedFile name.now (D.seen folder.old).files (survey_view survey.now) }
    ensures exact { IfOk result (λ tag. OnFile (D.seen folder.old) name.now
        (λ bytes. file_tag bytes (survey_view survey.now) ≡ Ok tag)) }
    // Whether or not the contents of the files are known.
    ensures none { tag_block (survey_view survey.now) ≡ None → result ≡ Ok empty_tag }
    ensures large { longest_tag < tag_length (survey_view survey.now)
        → result ≡ Err (FileTagFault.TooLarge (tag_length (survey_view survey.now))) }
    ensures done { OnOk result ((D.seen folder.new).counts ≡ (D.seen folder.old).counts) }
    ensures cause { IfErr result
        (IsTagCause name.now (D.seen folder.old).files (survey_view survey.now)
        (D.seen folder.old).counts (D.seen folder.new).counts) }
    ensures files { (D.seen folder.new).files ≡ (D.seen folder.old).files }
    ensures counts { OnlyReads (D.seen folder.old).counts (D.seen folder.new).counts }
{
    match first_tag(survey) {
        Some(piece) => read_piece(alloc, folder, name, survey, &piece),
        None => Ok(Tag::new(alloc)),
    }
}
