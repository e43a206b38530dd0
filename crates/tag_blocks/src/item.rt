//! Items of an APEv2 tag.
ghost use Rattle.std.specs.Prelude.{◌≡◌, ℕ, ◌+◌, ◌*◌, ◌^◌, ◌<◌, ◌≤◌, true, length, take, drop, ◌++◌, IfOk, IfSome, is_some};
ghost use Rattle.std.specs.List.{prefix_len};
ghost use Rattle.tag_blocks.specs.Items.{is_key_char, is_item, is_undo, item_bytes, item_length, has_whole_item, IsItemLayout, tag_item_of};

use crate::block::ape_number;
use byteorder::{ByteOrder, LittleEndian};
use std::alloc::{AllocError, Global};
use std::marker::Model;

/// The key of the undo item.
pub(crate) const UNDO_KEY: &[u8] = b"MP3GAIN_UNDO";

/// The length in bytes of what is before the key: the length of the value, and the flags.
const KEY_AT: usize = 8;

/// An item: flags, a key of 2 to 255 characters from 20 to 7e (hexadecimal), and a value.
#[derive(Drop)]
pub(crate) struct ApeItem {
    pub(crate) key: Vec<u8>,
    pub(crate) flags: u32,
    pub(crate) value: Vec<u8>,
}

impl Model for ApeItem {
    ghost use Rattle.tag_blocks.specs.Items.{TagItem};

    ghost Value = { TagItem };

    ghost view = { λ item.
        record { key = item.key.items; flags = item.flags; value = item.value.items } };
}

/// Whether a byte is a character of a key.
fn is_key_char(byte: u8) -> bool
    ensures { result ≡ is_key_char byte }
{
    (0x20..=0x7e).contains(&byte)
}

/// How many characters of a key the bytes begin with.
fn key_length(bytes: &[u8]) -> usize
    ensures length { result ≡ prefix_len is_key_char bytes.now }
    ensures within { result ≤ length bytes.now }
{
    for (at, byte) in bytes.iter().enumerate() {
        if !is_key_char(*byte) {
            return at;
        }
    }
    bytes.len()
}

/// Where the key of an item ends, and where the value begins and ends, in bytes from the item's first byte.
#[derive(Clone, Copy, Debug, PartialEq, Eq)]
struct Layout {
    key_end: usize,
    value_at: usize,
    end: usize,
}

/// The layout of the item with which the bytes begin. `None` exactly where they begin with none: eight
/// bytes, a key of 2 to 255 characters, a zero byte after it, and a value that is whole.
#[tactic(auto, unfolding(crate::specs::Items::has_whole_item))]
fn layout_at(bytes: &[u8]) -> Option<Layout>
    ensures stands { is_some result ≡ has_whole_item bytes.now }
    ensures offsets { IfSome result (λ layout. IsItemLayout bytes.now layout.key_end layout.value_at
        layout.end) }
{
    if bytes.len() < KEY_AT {
        return None;
    }
    let length = key_length(&bytes[KEY_AT..]);
    let value_at = KEY_AT + length + 1;
    let end = value_at + ape_number(bytes, 0) as usize;
    if length < 2 || length > 255 || end > bytes.len() || bytes[value_at - 1] != 0 {
        return None;
    }
    Some(Layout {
        key_end: value_at - 1,
        value_at,
        end,
    })
}

/// A copy of the bytes.
///
/// # Errors
/// If out of memory.
pub(crate) fn copy_of(alloc: Global, bytes: &[u8]) -> Result<Vec<u8>, AllocError>
    ensures { IfOk result (λ copy. copy.items ≡ bytes.now) }
{
    let mut copy = Vec::with_capacity(alloc, bytes.len())?;
    copy.extend_from_slice(bytes)?;
    Ok(copy)
}

impl ApeItem {
    /// The item with which the bytes begin, or `None` where they begin with none.
    ///
    /// # Errors
    /// If out of memory.
    #[tactic(auto, unfolding(crate::specs::Items::tag_item_front))]
    pub(crate) fn read(alloc: Global, bytes: &[u8]) -> Result<Option<ApeItem>, AllocError>
        ensures { IfOk result (λ item. item ≡ tag_item_of bytes.now) }
    {
        let Some(layout) = layout_at(bytes) else {
            return Ok(None);
        };
        Ok(Some(ApeItem {
            key: copy_of(alloc, &bytes[KEY_AT..layout.key_end])?,
            flags: ape_number(bytes, 4),
            value: copy_of(alloc, &bytes[layout.value_at..layout.end])?,
        }))
    }

    /// Whether this is the undo item: its key is `MP3GAIN_UNDO`, compared ignoring ASCII case.
    pub(crate) fn is_undo(&self) -> bool
        ensures { result ≡ is_undo self.now }
    {
        self.key.eq_ignore_ascii_case(UNDO_KEY)
    }

    /// The length of its bytes, which is less than 2^32.
    pub(crate) fn length(&self) -> usize
        requires { item_length self.now < 2 ^ 32 }
        ensures { result ≡ item_length self.now }
    {
        KEY_AT + self.key.len() + 1 + self.value.len()
    }

    /// Appends its bytes to these.
    ///
    /// # Errors
    /// If out of memory.
    #[tactic(auto, unfolding(crate::specs::Items::is_item, crate::specs::Items::item_bytes))]
    pub(crate) fn append(&self, bytes: &mut Vec<u8>) -> Result<(), AllocError>
        requires { is_item self.now ≡ true }
        ensures { IfOk result (λ _. bytes.new.items ≡ bytes.old.items ++ item_bytes self.now) }
    {
        let mut front = [0; KEY_AT];
        LittleEndian::write_u32(&mut front, self.value.len() as u32);
        LittleEndian::write_u32(&mut front[4..], self.flags);
        bytes.extend_from_slice(&front)?;
        bytes.extend_from_slice(&self.key)?;
        bytes.push(0)?;
        bytes.extend_from_slice(&self.value)
    }
}
