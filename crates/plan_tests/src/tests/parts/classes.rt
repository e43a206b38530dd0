//! The most main data that a frame can have, in each class and slot.

use super::planned::expect_plan;
use crate::tests::rows::Row::{Frame, LeadIn, Padded};
use frame_header::{Header, Slot};
use slot_plan::{Keep, Least, Need};
use std::alloc::AllocGlobal;
use std::process::Abort;
use std::test::Fail;
use test_files::table;

/// The lowest slot of a class without check words, and the lowest bit rate in kbit/s at which the area,
/// without padding, is at least a whole window: 511 bytes, and 255 in MPEG-2 and MPEG-2.5.
struct Row {
    header: [u8; 4],
    lead_in: u32,
}

static CLASSES: [Row; 18] = table! {
    Row { header, lead_in }
    ([0xff, 0xfb, 0x10, 0x00], 192)
    ([0xff, 0xfb, 0x10, 0xc0], 192)
    ([0xff, 0xfb, 0x14, 0x00], 192)
    ([0xff, 0xfb, 0x14, 0xc0], 192)
    ([0xff, 0xfb, 0x18, 0x00], 128)
    ([0xff, 0xfb, 0x18, 0xc0], 128)
    ([0xff, 0xf3, 0x10, 0x00], 96)
    ([0xff, 0xf3, 0x10, 0xc0], 96)
    ([0xff, 0xf3, 0x14, 0x00], 96)
    ([0xff, 0xf3, 0x14, 0xc0], 96)
    ([0xff, 0xf3, 0x18, 0x00], 64)
    ([0xff, 0xf3, 0x18, 0xc0], 64)
    ([0xff, 0xe3, 0x10, 0x00], 48)
    ([0xff, 0xe3, 0x10, 0xc0], 48)
    ([0xff, 0xe3, 0x14, 0x00], 48)
    ([0xff, 0xe3, 0x14, 0xc0], 48)
    ([0xff, 0xe3, 0x18, 0x00], 32)
    ([0xff, 0xe3, 0x18, 0xc0], 32)
};

/// The main data of a frame in this slot that has as many as it
/// can begin a whole window before its area, after its lead-in.
fn expect_greatest<R: Abort + AllocGlobal>(
    rt: &R,
    header: Header,
    lead_in: u32,
) -> Result<(), Fail> {
    let class = header.class();
    let window = class.window();
    let bytes = window + header.area();
    let slot = header.slot;
    let needs = [Need { header, bytes }];
    let rate = class.rate(slot);
    let begin = window as u16;
    let frame = if slot.padding {
        Padded(rate, begin)
    } else {
        Frame(rate, begin)
    };
    let rows = [LeadIn(lead_in, 0), frame];
    expect_plan(rt, &needs, &[0], &Keep, &rows, "kept")?;
    // No slot is larger than the largest.
    if slot.rate_index == 14 && slot.padding {
        expect_plan(rt, &needs, &[0], &Least, &rows, "least")?;
    }
    Ok(())
}

#[test]
fn greatest_payloads(rt: HostRuntime) -> Result<(), Fail> {
    for row in &CLASSES {
        let header = Header::read(row.header)?;
        for rate_index in 1..15 {
            for padding in [false, true] {
                let slot = Slot {
                    rate_index,
                    padding,
                };
                expect_greatest(&rt, header.with_slot(slot), row.lead_in)?;
            }
        }
    }
    Ok(())
}
