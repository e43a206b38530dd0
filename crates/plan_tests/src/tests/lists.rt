//! Plans of a short part by trying every list of slots, in the order of the areas.

use arrayvec::ArrayVec;
use frame_header::Slot;
use slot_plan::{Need, Placed};

/// The slots that lead-ins may have, and also frames, unless each frame keeps its own.
#[derive(Clone, Copy)]
pub struct Menu<'a> {
    pub slots: &'a [Slot],
    pub is_kept: bool,
}

/// A list of slots in which the main data can be laid, the first `lead_ins` of them for lead-ins, and the sum of its areas in
/// bytes.
#[derive(Drop)]
pub struct Found {
    pub sum: u32,
    pub lead_ins: usize,
    pub slots: ArrayVec<Slot, 5>,
    pub begins: ArrayVec<u16, 5>,
}

/// How many lists of slots there are.
fn count_of(menu: Menu<'_>, frames: usize, lead_ins: usize) -> u64 {
    let chosen = if menu.is_kept { 0 } else { frames };
    let mut count: u64 = 1;
    for _ in 0..chosen.saturating_add(lead_ins) {
        count = count.saturating_mul(menu.slots.len() as u64);
    }
    count
}

/// The slot that is chosen next in the list of this number,
/// where `behind` lists have the same slots up to it.
fn slot_in(menu: Menu<'_>, number: u64, behind: u64) -> Option<Slot> {
    let place = number
        .checked_div(behind)?
        .checked_rem(menu.slots.len() as u64)?;
    menu.slots.get(place as usize).copied()
}

/// The number of the first list after the `behind` lists that have the same slots up to here.
fn next_in(number: u64, behind: u64) -> u64 {
    let same = number.checked_div(behind).unwrap_or(number);
    same.saturating_add(1).saturating_mul(behind.max(1))
}

/// The list of this number, whose last slot changes fastest, with main data laid as early as possible after `lead_ins`
/// lead-ins. Where some main data end after their frame, the number of the next list that has other slots up to that frame.
fn laid(needs: &[Need], menu: Menu<'_>, lead_ins: usize, number: u64) -> Result<Found, u64> {
    let mut found = Found {
        sum: 0,
        lead_ins,
        slots: ArrayVec::new(),
        begins: ArrayVec::new(),
    };
    let mut behind = count_of(menu, needs.len(), lead_ins);
    let mut end: u32 = 0;
    for at in 0..needs.len().saturating_add(lead_ins) {
        let need = needs.get(at.saturating_sub(lead_ins)).ok_or(u64::MAX)?;
        let class = need.header.class();
        let is_lead_in = at < lead_ins;
        let slot = if is_lead_in || !menu.is_kept {
            behind = behind.checked_div(menu.slots.len() as u64).unwrap_or(0);
            slot_in(menu, number, behind).ok_or(u64::MAX)?
        } else {
            need.header.slot
        };
        let bytes = if is_lead_in { 0 } else { need.bytes };
        let area = class.area_of(slot, need.header.protected && !is_lead_in);
        let start = end.max(found.sum.saturating_sub(class.window()));
        let begin = found.sum.saturating_sub(start).min(511) as u16;
        end = start.saturating_add(bytes);
        found.sum = found.sum.saturating_add(area);
        let is_whole = found.slots.try_push(slot).is_ok() && found.begins.try_push(begin).is_ok();
        if end > found.sum || !is_whole {
            return Err(next_in(number, behind));
        }
    }
    Ok(found)
}

/// The first list with `lead_ins` lead-ins.
pub fn first_list(needs: &[Need], menu: Menu<'_>, lead_ins: usize) -> Option<Found> {
    let count = count_of(menu, needs.len(), lead_ins);
    let mut number = 0;
    for _ in 0..count {
        if number >= count {
            return None;
        }
        match laid(needs, menu, lead_ins, number) {
            Ok(found) => return Some(found),
            Err(next) => number = next,
        }
    }
    None
}

/// The first list without a lead-in, otherwise the first with one.
pub fn first_of_all(needs: &[Need], menu: Menu<'_>) -> Option<Found> {
    if let Some(found) = first_list(needs, menu, 0) {
        return Some(found);
    }
    first_list(needs, menu, 1)
}

/// The first list whose sum of areas is the least.
pub fn least_list(needs: &[Need], menu: Menu<'_>, lead_ins: usize) -> Option<Found> {
    let mut best: Option<Found> = None;
    let mut least = u32::MAX;
    let count = count_of(menu, needs.len(), lead_ins);
    let mut number: u64 = 0;
    for _ in 0..count {
        if number >= count {
            return best;
        }
        match laid(needs, menu, lead_ins, number) {
            Ok(found) => {
                number = number.saturating_add(1);
                if found.sum < least {
                    least = found.sum;
                    best = Some(found);
                }
            }
            Err(next) => number = next,
        }
    }
    best
}

/// Whether a plan has the frames of the list at these places.
fn has_frames(placed: &[Placed], found: &Found) -> bool {
    for (at, frame) in placed.iter().enumerate() {
        let (Some(slot), Some(begin)) = (found.slots.get(at), found.begins.get(at)) else {
            return false;
        };
        let wanted = Placed {
            lead_in: at < found.lead_ins,
            slot: *slot,
            begin: *begin,
        };
        if *frame != wanted {
            return false;
        }
    }
    true
}

/// Whether a list was found, and the plan has its frames and no others.
pub fn is_found(placed: &[Placed], found: Option<Found>) -> bool {
    match found {
        Some(found) => placed.len() == found.slots.len() && has_frames(placed, &found),
        None => false,
    }
}
