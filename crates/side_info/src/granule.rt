//! The side information of one granule and channel.

use frame_header::Version;

/// The fields of one granule and channel (ISO/IEC 11172-3 and 13818-3, 2.4.1.7). All are 0 if the class
/// lacks the granule or the channel.
// The widest first, so that no room is lost between them.
#[derive(Clone, Copy, Debug, PartialEq, Eq)]
pub struct Granule {
    /// The 22 bits after `window_switching` as one number, which nothing here takes apart: block type,
    /// table numbers and subblock gains, or table numbers and region counts, depending on the flag.
    pub detail: u32,
    /// The length of its main data in bits, scale factors and Huffman codes together: 12 bits.
    pub part2_3_length: u16,
    /// The number of pairs of spectral values in the region of big values: 9 bits.
    pub big_values: u16,
    /// The code for the sizes of the scale factors: 4 bits, 9 in MPEG-2 and MPEG-2.5.
    pub scalefac_compress: u16,
    /// The gain, in steps of 1.5 dB: 8 bits.
    pub global_gain: u8,
    pub window_switching: bool,
    /// False in MPEG-2 and MPEG-2.5, which lack it.
    pub preflag: bool,
    pub scalefac_scale: bool,
    pub count1table_select: bool,
}

impl Granule {
    ghost use Rattle.std.specs.Prelude.{◌↔◌, IsTrue};
    ghost use Rattle.side_info.specs.Granule.{GranuleFits};

    /// Whether each field is within its bits, and preflag is false in MPEG-2 and MPEG-2.5, which lack it.
    pub fn fits(&self, version: Version) -> bool
        ensures { IsTrue result ↔ GranuleFits version self.now }
    {
        let _gain = self.global_gain;
        if self.part2_3_length >= 1 << 12 || self.big_values >= 1 << 9 || self.detail >= 1 << 22 {
            return false;
        }
        match version {
            Version::One => self.scalefac_compress < 1 << 4,
            Version::Two | Version::TwoFive => self.scalefac_compress < 1 << 9 && !self.preflag,
        }
    }
}

/// All fields 0.
pub const NO_GRANULE: Granule = Granule {
    detail: 0,
    part2_3_length: 0,
    big_values: 0,
    scalefac_compress: 0,
    global_gain: 0,
    window_switching: false,
    preflag: false,
    scalefac_scale: false,
    count1table_select: false,
};
