//! Where a frame has its check word.
ghost use Rattle.std.specs.Prelude.{◌≡◌, ◌≤◌, ◌++◌, length, take, drop};
ghost use Rattle.bit_fields.specs.Bits.{bits_of, bytes};
ghost use Rattle.side_info.specs.Frame.{stored_crc};

/// The length of a header in bytes.
pub(crate) const HEADER_SIZE: usize = 4;

/// The length of a header and a check word in bytes.
pub(crate) const PROTECTED_SIZE: usize = 6;

/// The check word that is in a protected frame, right after its header.
#[tactic(auto, unfolding(crate::specs::Frame::stored_crc))]
pub fn stored_crc(frame: &[u8]) -> u16
    requires { 6 ≤ length frame.now }
    ensures { result ≡ stored_crc frame.now }
{
    u16::from_be_bytes([frame[4], frame[5]])
}

/// Writes a check word right after the header.
pub(crate) fn put_crc(word: u16, frame: &mut [u8])
    requires { 6 ≤ length frame.old }
    ensures { frame.new ≡ take 4 frame.old ++ (bytes (bits_of 16 word) ++ drop 6 frame.old) }
{
    frame[HEADER_SIZE..PROTECTED_SIZE].copy_from_slice(&word.to_be_bytes());
}
