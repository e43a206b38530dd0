//! The version of the standard that a frame is of.

/// MPEG-1 (ISO/IEC 11172-3), the lower sampling frequencies of MPEG-2 (ISO/IEC 13818-3), or MPEG-2.5, which
/// halves these once more. MPEG-2.5 is in no standard; it differs from MPEG-2 only in its frequencies and
/// in the last bit of the sync word.
#[derive(Clone, Copy, Debug, PartialEq, Eq)]
pub enum Version {
    /// MPEG-1: 32, 44.1 and 48 kHz, two granules a frame.
    One,
    /// MPEG-2: 16, 22.05 and 24 kHz, one granule a frame.
    Two,
    /// MPEG-2.5: 8, 11.025 and 12 kHz, one granule a frame.
    TwoFive,
}
