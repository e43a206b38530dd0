//! Where the text of a head is.
ghost use Rattle.std.specs.Prelude.{◌≡◌, ◌+◌, ◌≤◌, length, IsTrue, IfSome};
ghost use Rattle.info_header.specs.HeadText.{has_text, head_text_of};

use frame_header::Header;

/// The length of a header in bytes.
const HEADER_SIZE: u32 = 4;

/// The length of a check word in bytes.
const CHECK_WORD_SIZE: u32 = 2;

/// Whether `Xing` or `Info` is at byte `at` of a frame.
#[tactic(auto, unfolding(crate::specs::HeadText::has_text))]
fn has_text(at: u32, frame: &[u8]) -> bool
    ensures text { result ≡ has_text at frame.now }
    ensures within { IsTrue result → at + 4 ≤ length frame.now }
{
    let at = at as usize;
    match frame.get(at..at + 4) {
        Some(text) => text == b"Xing".as_slice() || text == b"Info".as_slice(),
        None => false,
    }
}

/// The offset of `Xing` or `Info` in a frame, in bytes from its first. `frame` is all bytes of the frame.
/// The text is looked for right after where the side information ends without a check word
/// (`4 + side_size`), and then, in a protected frame, also two bytes later, after the check word. `None`
/// exactly where it is at neither offset.
#[tactic(auto, unfolding(crate::specs::HeadText::head_text_of, crate::specs::HeadText::low_offset, crate::specs::HeadText::high_offset))]
pub fn head_text(header: &Header, frame: &[u8]) -> Option<u32>
    ensures offset { result ≡ head_text_of header.now frame.now }
    // The whole text is in the frame.
    ensures within { IfSome result (λ at. at + 4 ≤ length frame.now) }
{
    let low = HEADER_SIZE + header.class().side_size();
    if has_text(low, frame) {
        return Some(low);
    }
    let high = low + CHECK_WORD_SIZE;
    if header.protected && has_text(high, frame) {
        return Some(high);
    }
    None
}
