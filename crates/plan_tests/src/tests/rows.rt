//! The frames of a plan, as tests write them.

use frame_header::Class;
use slot_plan::{Need, Placed};
use std::process::Abort;

/// A frame of a plan: its bit rate in kbit/s, and its main_data_begin in bytes.
#[derive(Clone, Copy, PartialEq, Eq)]
pub enum Row {
    LeadIn(u32, u16),
    PaddedLeadIn(u32, u16),
    Frame(u32, u16),
    Padded(u32, u16),
}

fn row_of(class: Class, placed: &Placed) -> Row {
    let rate = class.rate(placed.slot);
    match (placed.lead_in, placed.slot.padding) {
        (true, false) => Row::LeadIn(rate, placed.begin),
        (true, true) => Row::PaddedLeadIn(rate, placed.begin),
        (false, false) => Row::Frame(rate, placed.begin),
        (false, true) => Row::Padded(rate, placed.begin),
    }
}

/// The first place where the plan has another frame than these;
/// the number of frames of the plan where it has more or fewer.
fn other_row(class: Class, placed: &[Placed], rows: &[Row]) -> Option<usize> {
    if placed.len() != rows.len() {
        return Some(placed.len());
    }
    placed
        .iter()
        .zip(rows)
        .position(|(frame, row)| row_of(class, frame) != *row)
}

/// Expects that the plan of these needs has these frames.
pub fn expect_rows<R: Abort>(rt: &R, needs: &[Need], placed: &[Placed], rows: &[Row], name: &str) {
    assert!(rt; !needs.is_empty());
    if let Some(place) = other_row(needs[0].header.class(), placed, rows) {
        panic!(rt; "{name}: another plan at {place}");
    }
}
