//! APEv2 tags: read, changed and written.
ghost use Rattle.std.specs.Prelude.{◌≡◌, ℕ, ◌+◌, ◌<◌, ◌≤◌, ◌==◌, ◌⊎◌, true, [], length, IfOk, IfErr, OnOk, OnErr, MatchResult, Some, Ok, Err};
ghost use Rattle.tag_blocks.specs.declared.block.Kind.TheVariants.{Ape};
ghost use Rattle.tag_blocks.specs.declared.tag_fault.TagFault.TheVariants.{Memory};
ghost use Rattle.tag_blocks.specs.Blocks.{block_front};
ghost use Rattle.tag_blocks.specs.UndoText.{UndoFitsText, undo_of};
ghost use Rattle.tag_blocks.specs.Items.{items_length};
ghost use Rattle.tag_blocks.specs.Tags.{tag_of, tag_bytes, IsOffsetIn};
ghost use Rattle.tag_blocks.specs.UndoItems.{undo_at, undo_from, with_undo, without_undo};

use crate::block::{APE_FLAGS_AT, APE_HEADER, APE_SIZE_AT, ape_number};
use crate::ends::{COUNT_AT, RESERVED_AT, append_end, is_footer, is_reserved};
use crate::item::ApeItem;
use crate::items::{append_items, items_length, put_undo, read_items, undo_index};
use crate::tag_fault::TagFault;
use crate::undo::{Undo, UndoItem};
use std::alloc::{AllocError, Global};
use std::marker::Model;

/// An APEv2 tag. In contracts it is the flags of its header and of its footer, and its items in their order
/// (`TagFields`). No value is looked at except the value of the undo item.
#[derive(Drop)]
pub struct Tag {
    alloc: Global,
    header_flags: u32,
    footer_flags: u32,
    items: Vec<ApeItem>,
}

impl Model for Tag {
    ghost use Rattle.tag_blocks.specs.Tags.{TagFields, IsTag};

    ghost Value = { TagFields };

    ghost view = { λ tag. record {
      header_flags = tag.header_flags;
      footer_flags = tag.footer_flags;
      items = tag.items.items;
    } };

    ghost invariant = { λ tag. IsTag (record {
      header_flags = tag.header_flags;
      footer_flags = tag.footer_flags;
      items = tag.items.items;
    }) };
}

/// The tag that an APEv2 block is.
///
/// # Errors
/// As `Tag::read`.
fn read_block(alloc: Global, block: &[u8]) -> Result<Tag, TagFault>
    requires long { 64 ≤ length block.now }
    requires most { length block.now ≤ 1048576 }
    requires block { block_front block.now ≡ Some
        (record { kind = Ape; length = length block.now }) }
    ensures tag { MatchResult result
        (λ tag. tag_of block.now ≡ Ok tag)
        (λ fault. (fault ≡ Memory) ⊎ (tag_of block.now ≡ Err fault)) }
    ensures whole { IfOk result (λ tag. tag_bytes tag ≡ block.now) }
{
    if !is_reserved(block) {
        return Err(TagFault::BadTag(RESERVED_AT as u64));
    }
    let end = block.len() - APE_HEADER;
    let count = ape_number(block, COUNT_AT);
    let Ok(items) = read_items(alloc, &block[APE_HEADER..end], count) else {
        return Err(TagFault::Memory);
    };
    let offset = APE_HEADER + items_length(&items);
    if items.len() != count as usize || offset != end {
        return Err(TagFault::BadTag(offset as u64));
    }
    let footer = &block[end..];
    if !is_footer(footer, ape_number(block, APE_SIZE_AT), count) {
        return Err(TagFault::BadTag(end as u64));
    }
    Ok(Tag {
        alloc,
        header_flags: ape_number(block, APE_FLAGS_AT),
        footer_flags: ape_number(footer, APE_FLAGS_AT),
        items,
    })
}

/// What an undo item at this offset says, by its value. The offset is in bytes from the block's first byte.
fn undo_item_of(offset: u64, item: &ApeItem) -> UndoItem
    ensures { result ≡ undo_at offset (undo_of item.now.value) }
{
    match Undo::read(&item.value) {
        Some(undo) => UndoItem::Found(undo),
        None => UndoItem::Bad(offset),
    }
}

impl Tag {
    /// A tag without items. Its flags are the flags of a tag with a header and a footer: a0000000 and 80000000
    /// (hexadecimal). It allocates nothing.
    pub fn new(alloc: Global) -> Tag
        ensures { result ≡ record {
          header_flags = 0xa0000000;
          footer_flags = 0x80000000;
          items = [];
        } }
    {
        Tag {
            alloc,
            header_flags: 0xa000_0000,
            footer_flags: 0x8000_0000,
            items: Vec::new(alloc),
        }
    }

    /// The tag that a block is. `block_at` has to return an APEv2 block of exactly this length for it, at most
    /// 1,048,576 bytes.
    ///
    /// # Errors
    /// `BadTag` with the offset of the first fault, in bytes from the block's first byte. Faults are looked
    /// for in this order (APEv2):
    /// - the last 8 bytes of the header aren't zero: 24;
    /// - one of the items that the header counts isn't whole before the footer, has no key of 2 to 255 characters
    ///   from 20 to 7e (hexadecimal), or is a second one with the key `MP3GAIN_UNDO`, compared ignoring ASCII case:
    ///   the offset of the first such item;
    /// - the last item doesn't end where the footer begins: its end;
    /// - the footer lacks the text, version 2000, the header's size and count, a clear flag bit 29 or 8 zero bytes:
    ///   the offset of the footer.
    ///
    /// `Memory` if out of memory.
    pub fn read(alloc: Global, block: &[u8]) -> Result<Tag, TagFault>
        requires block { block_front block.now ≡ Some
            (record { kind = Ape; length = length block.now }) }
        requires most { length block.now ≤ 1048576 }
        ensures tag { MatchResult result
            (λ tag. tag_of block.now ≡ Ok tag)
            (λ fault. (fault ≡ Memory) ⊎ (tag_of block.now ≡ Err fault)) }
        ensures whole { IfOk result (λ tag. tag_bytes tag ≡ block.now) }
        ensures within { IfErr result (IsOffsetIn block.now) }
    {
        read_block(alloc, block)
    }

    /// Whether the tag has no items.
    pub fn is_empty(&self) -> bool
        ensures { result ≡ (length self.now.items == 0) }
    {
        self.items.is_empty()
    }

    /// The length in bytes of the block that `write` returns: header, items and footer. It is at most 2,097,088.
    pub fn length(&self) -> u64
        ensures length { result ≡ 64 + items_length self.now.items }
        ensures bytes { result ≡ length (tag_bytes self.now) }
        ensures most { result ≤ 2097088 }
    {
        (2 * APE_HEADER + items_length(&self.items)) as u64
    }

    /// What the undo item says: the item with the key `MP3GAIN_UNDO`, compared ignoring ASCII case.
    pub fn undo(&self) -> UndoItem
        ensures { result ≡ undo_from 32 self.now.items }
    {
        let mut offset = APE_HEADER as u64;
        for item in &self.items {
            if item.is_undo() {
                return undo_item_of(offset, item);
            }
            offset += item.length() as u64;
        }
        UndoItem::Missing
    }

    /// Makes this the value of the undo item. Where there is none, a new one is added after all others,
    /// with flags 0. Both numbers have to be from -999 to 999. All other items stay as they are.
    ///
    /// # Errors
    /// If out of memory. Then the tag stays as it was.
    pub fn set_undo(&mut self, undo: &Undo) -> Result<(), AllocError>
        requires { UndoFitsText undo.now }
        ensures set { OnOk result (self.new
            ≡ record self.old { items = with_undo undo.now self.old.items }) }
        ensures stays { OnErr result (self.new ≡ self.old) }
    {
        put_undo(self.alloc, &mut self.items, undo)
    }

    /// Takes the undo item out of the tag, where there is one. All other items stay as they are. It allocates
    /// nothing.
    pub fn drop_undo(&mut self)
        ensures { self.new ≡ record self.old { items = without_undo self.old.items } }
    {
        if let Some(at) = undo_index(&self.items) {
            self.items.remove(at);
        }
    }

    /// The bytes of the block: header, items and footer. They are read as this tag again.
    ///
    /// # Errors
    /// If out of memory.
    pub fn write(&self, alloc: Global) -> Result<Vec<u8>, AllocError>
        ensures bytes { IfOk result (λ block. block.items ≡ tag_bytes self.now) }
        ensures back { IfOk result (λ block. tag_of block.items ≡ Ok self.now) }
        ensures block { IfOk result (λ block. block_front block.items ≡ Some
            (record { kind = Ape; length = length block.items })) }
    {
        let size = (items_length(&self.items) + APE_HEADER) as u32;
        let count = self.items.len() as u32;
        let mut block = Vec::with_capacity(alloc, APE_HEADER + size as usize)?;
        append_end(&mut block, size, count, self.header_flags)?;
        append_items(&mut block, &self.items)?;
        append_end(&mut block, size, count, self.footer_flags)?;
        Ok(block)
    }
}
