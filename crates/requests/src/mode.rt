//! How a file is packed.

/// How a file is packed. Bit rates are in kbit/s.
#[derive(Clone, Copy, Debug, PartialEq, Eq)]
pub enum PackMode {
    /// Each frame, from the first on, in the smallest slot that still leaves room for the main data of all later
    /// frames.
    Least,
    /// The slots that take the fewest bytes in all, with a lead-in where `Least` has one. At most 200,000 frames.
    Best,
    /// As `Least`, with slots of this bit rate alone, in a lead-in too.
    Constant(u16),
    /// As `Least`, with slots of at least this bit rate, in a lead-in too.
    Floor(u16),
}
