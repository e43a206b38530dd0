//! Delay and padding of a join without seams, and what its Info frame keeps of the heads.
ghost use Rattle.std.specs.Prelude.{◌≡◌, ◌<◌, length, option_copied, IfSome};
ghost use Rattle.seamless_edits.specs.Numbers.{counted_delay, ends_padding, head_says_gain, all_say, gains_kept, splice_kept};

use crate::beginnings::Beginning;
use cut_edits::quality_of;
use exact_span::{Played, counts_of, extension};
use frame_header::Class;
use info_header::Info;
use laying::Kept;

/// By how many samples a decoder is late, as players count it.
const DECODER_DELAY: u64 = 529;

/// The greatest number of 12 bits.
const MOST: u64 = 4095;

/// By how many whole frames the part that a player skips at the front changes: less one for each
/// frame left out there, and one more for each lead-in before the first.
#[derive(Clone, Copy)]
pub(crate) struct Moved {
    pub left_out: u32,
    pub lead_ins: u32,
}

/// The delay in samples of a splice that begins with an input of `frames` frames and with this head:
/// the head's own, plus a frame for each lead-in and less a frame for each frame left out. `None`
/// if the head doesn't count, or if the delay has more than 12 bits.
fn delay_of(class: Class, head: Option<&Info>, frames: u32, moved: Moved) -> Option<u16>
    ensures delay { result ≡ counted_delay class (option_copied head.entry) frames moved }
    ensures most { IfSome result (λ delay. delay < 4096) }
{
    let played = Played::counted(head, class, frames)?;
    let samples = u64::from(class.samples());
    let start = played.start + u64::from(moved.lead_ins) * samples;
    let delay = start
        .saturating_sub(u64::from(moved.left_out) * samples)
        .saturating_sub(DECODER_DELAY);
    if delay <= MOST {
        Some(delay as u16)
    } else {
        None
    }
}

/// The padding in samples of a splice that ends with an input of `frames` frames and with this head.
fn padding_of(class: Class, head: Option<&Info>, frames: u32) -> u16
    ensures padding { result ≡ ends_padding class (option_copied head.entry) frames }
    ensures most { result < 4096 }
{
    let rest = match Played::counted(head, class, frames) {
        Some(played) => played.rest(class, frames),
        None => 0,
    };
    (rest + DECODER_DELAY) as u16
}

/// Whether a head counts and has these values of peak and gains.
fn says_gain(gain: &[u8], head: Option<&Info>) -> bool
    ensures { result ≡ head_says_gain gain.now (option_copied head.entry) }
{
    match head {
        Some(info) => counts_of(head).is_some() && &info.extension[11..19] == gain,
        None => false,
    }
}

/// Whether all these heads count and have these values of peak and gains.
fn all_say(gain: &[u8], beginnings: &[Beginning]) -> bool
    ensures { result ≡ all_say gain.now beginnings.now }
{
    for beginning in beginnings {
        if !says_gain(gain, beginning.head.as_ref()) {
            return false;
        }
    }
    true
}

/// Clears peak and gains of the extension unless the heads of all these inputs count and have the
/// same values.
fn keep_gains(extension: &mut [u8; 36], beginnings: &[Beginning])
    ensures { extension.new ≡ gains_kept extension.old beginnings.now }
{
    if !all_say(&extension[11..19], beginnings) {
        extension[11..19].fill(0);
    }
}

/// The class of the inputs, and how many frames the first and the last have.
#[derive(Clone, Copy)]
pub(crate) struct Ends {
    pub class: Class,
    pub first: u32,
    pub last: u32,
}

/// What the Info frame keeps of the heads: the quality of the first, and its extension with the
/// delay and the padding of the splice. `None` if no numbers are written. There is at least one input.
pub(crate) fn kept_of(beginnings: &[Beginning], ends: Ends, moved: Moved) -> Option<Kept>
    requires { 0 < length beginnings.now }
    ensures { result ≡ splice_kept beginnings.now ends moved }
{
    let first = beginnings[0].head.as_ref();
    let last = beginnings[beginnings.len() - 1].head.as_ref();
    let delay = delay_of(ends.class, first, ends.first, moved)?;
    let padding = padding_of(ends.class, last, ends.last);
    let mut kept = extension(first, delay, padding);
    keep_gains(&mut kept, &beginnings[1..]);
    Some(Kept {
        quality: quality_of(first),
        extension: kept,
    })
}
