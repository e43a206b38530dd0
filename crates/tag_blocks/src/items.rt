//! The items of an APEv2 tag, in order.
ghost use Rattle.std.specs.Prelude.{◌≡◌, ◌^◌, ◌<◌, ◌≤◌, ◌++◌, true, false, length, IfOk, OnOk, OnErr, position};
ghost use Rattle.std.specs.List.{list_all};
ghost use Rattle.tag_blocks.specs.UndoText.{UndoFitsText};
ghost use Rattle.tag_blocks.specs.UndoItems.{with_undo};
ghost use Rattle.tag_blocks.specs.Items.{is_item, is_undo, items_length, items_bytes, tag_items_from, next_item};

use crate::item::{ApeItem, UNDO_KEY, copy_of};
use crate::undo::Undo;
use std::alloc::{AllocError, Global};

/// The item with which the bytes begin, unless it is an undo item and one was found before.
///
/// # Errors
/// If out of memory.
fn next_item(alloc: Global, bytes: &[u8], met: bool) -> Result<Option<ApeItem>, AllocError>
    ensures { IfOk result (λ item. item ≡ next_item met bytes.now) }
{
    let Some(item) = ApeItem::read(alloc, bytes)? else {
        return Ok(None);
    };
    if met && item.is_undo() {
        return Ok(None);
    }
    Ok(Some(item))
}

/// The items with which the bytes begin, with nothing between them: at most `count` of them, and only those
/// before a second undo item.
///
/// # Errors
/// If out of memory.
pub(crate) fn read_items(
    alloc: Global,
    bytes: &[u8],
    count: u32,
) -> Result<Vec<ApeItem>, AllocError>
    requires { length bytes.now < 2 ^ 32 }
    ensures { IfOk result (λ items. items.items ≡ tag_items_from count false bytes.now) }
{
    let mut items = Vec::new(alloc);
    let mut passed = 0;
    let mut met = false;
    for _ in 0..count {
        let Some(item) = next_item(alloc, &bytes[passed..], met)? else {
            break;
        };
        met = met || item.is_undo();
        passed += item.length();
        items.push(item)?;
    }
    Ok(items)
}

/// The length of the bytes of all items together, which is less than 2^32.
pub(crate) fn items_length(items: &[ApeItem]) -> usize
    requires { items_length items.now < 2 ^ 32 }
    ensures { result ≡ items_length items.now }
{
    let mut length = 0;
    for item in items {
        length += item.length();
    }
    length
}

/// The index of the undo item among the items.
pub(crate) fn undo_index(items: &[ApeItem]) -> Option<usize>
    ensures { result ≡ position is_undo items.now }
{
    items.iter().position(|item| item.is_undo())
}

/// Makes this the value of the undo item, or adds a new undo item after all others where there is none.
///
/// # Errors
/// If out of memory. Then the items stay as they were.
pub(crate) fn put_undo(
    alloc: Global,
    items: &mut Vec<ApeItem>,
    undo: &Undo,
) -> Result<(), AllocError>
    requires { UndoFitsText undo.now }
    ensures put { OnOk result (items.new.items ≡ with_undo undo.now items.old.items) }
    ensures stays { OnErr result (items.new.items ≡ items.old.items) }
{
    let value = copy_of(alloc, &undo.text())?;
    match undo_index(items) {
        Some(at) => {
            let item = &mut items[at];
            item.value = value;
        }
        None => {
            let key = copy_of(alloc, UNDO_KEY)?;
            items.push(ApeItem {
                key,
                flags: 0,
                value,
            })?;
        }
    }
    Ok(())
}

/// Appends the bytes of all items to these.
///
/// # Errors
/// If out of memory.
pub(crate) fn append_items(bytes: &mut Vec<u8>, items: &[ApeItem]) -> Result<(), AllocError>
    requires { list_all is_item items.now ≡ true }
    ensures { IfOk result (λ _. bytes.new.items ≡ bytes.old.items ++ items_bytes items.now) }
{
    for item in items {
        item.append(bytes)?;
    }
    Ok(())
}
