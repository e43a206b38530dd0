//! One frame.
ghost use Rattle.std.specs.Prelude.{◌≡◌, ◌+◌, ◌*◌, ◌/◌, ◌%◌, ◌≤◌, length, map};
ghost use Rattle.drill.specs.Draws.{state_after};
ghost use Rattle.drill.specs.Drill.{drill_header, drill_room, granule_with, granules_with, first_bits, drawn_side, drawn_payload};
ghost use Rattle.frame_header.specs.Limits.{most_back};

use crate::draws::Draws;
use frame_header::{Header, Slot, Version};
use reservoir::{Payload, Window};
use side_info::{Granule, Side};

/// The length of a frame's area in bytes.
const AREA: u16 = 381;

/// The greatest length of a frame's main data in bytes: its own area, and as many bytes before it
/// as main_data_begin can count.
const ROOM: usize = 892;

/// The header of each frame: MPEG-1, 128 kbit/s at 44,100 Hz in two channels, without a check word. The frame has 417
/// bytes.
pub(crate) fn drill_header() -> Header
    ensures { result ≡ drill_header }
{
    Header {
        version: Version::One,
        protected: false,
        slot: Slot {
            rate_index: 9,
            padding: false,
        },
        frequency_index: 0,
        private_bit: false,
        mode: 0,
        mode_extension: 0,
        copyright: false,
        original: false,
        emphasis: 0,
    }
}

/// A granule and channel with `bits` bits of main data and this global_gain; its other fields are
/// 0.
fn granule(bits: u16, gain: u8) -> Granule
    ensures { result ≡ granule_with bits gain }
{
    Granule {
        part2_3_length: bits,
        global_gain: gain,
        big_values: 0,
        scalefac_compress: 0,
        window_switching: false,
        detail: 0,
        preflag: false,
        scalefac_scale: false,
        count1table_select: false,
    }
}

/// The granules of a frame whose main data begin `begin` bytes before its own area, with a draw for
/// the length and one for the gain of each granule and channel. Each has at most twice as many bits
/// as there are bytes for the main data, so that all four fit, and a gain from 100 to 199.
fn granules(begin: u16, lengths: &[u16; 4], gains: &[u16; 4]) -> [[Granule; 2]; 2]
    requires few { begin ≤ most_back }
    requires four { (length lengths.now ≡ 4) × (length gains.now ≡ 4) }
    ensures { result ≡ granules_with
        (map (λ draw. draw % (2 * drill_room begin + 1)) lengths.now)
        (map (λ draw. 100 + draw % 100) gains.now) }
{
    let most = 2 * (AREA + begin) + 1;
    let nth = |i: usize| granule(lengths[i] % most, (100 + gains[i] % 100) as u8);
    [[nth(0), nth(1)], [nth(2), nth(3)]]
}

/// Draws the side information of a frame whose main data begin `begin` bytes before its own area.
/// The main data fit into the frame's own area and these bytes.
pub(crate) fn draw_side(draws: &mut Draws, begin: u16) -> Side
    requires few { begin ≤ most_back }
    ensures side { result ≡ drawn_side begin draws.old.state }
    ensures state { draws.new.state ≡ state_after 8 draws.old.state }
{
    let lengths = draws.four();
    let gains = draws.four();
    let mut side = Side::empty().with_begin(begin);
    side.granules = granules(begin, &lengths, &gains);
    side
}

/// These bytes as main data of `bits` bits, at most 7,136, in as few bytes as hold them; the unused
/// low bits of the last byte are 0. They are in the window, replacing what it held.
fn pack<'w>(bytes: &[u8], bits: u32, window: &'w mut Window) -> Payload<'w>
    requires few { bits ≤ 7136 }
    requires size { length bytes.now ≡ (bits + 7) / 8 }
    ensures payload { result ≡ first_bits bits bytes.now }
    ensures size { length result ≡ (bits + 7) / 8 }
{
    window.clear();
    window.push_area(bytes);
    window.main_data(bytes.len() as u32, 0, bits)
}

/// Draws the main data of a frame: `bits` bits, at most 7,136, in as few bytes as hold them, each at most
/// 3f (hexadecimal).
#[tactic(auto, unfolding(crate::specs::Drill::drawn_payload))]
pub(crate) fn draw_payload<'w>(draws: &mut Draws, bits: u32, window: &'w mut Window) -> Payload<'w>
    requires few { bits ≤ 7136 }
    ensures payload { result ≡ drawn_payload bits draws.old.state }
    ensures size { length result ≡ (bits + 7) / 8 }
    ensures state { draws.new.state ≡ state_after ((bits + 7) / 8) draws.old.state }
{
    let count = bits.div_ceil(8) as usize;
    let mut room = [0; ROOM];
    let bytes = &mut room[..count];
    draws.fill(bytes);
    pack(bytes, bits, window)
}
