//! Laws of parts of well-formed streams. Each function does nothing: a proof that needs its law calls it.
ghost use Rattle.laying.specs.NeedsLaws.{PartFits, OnePartFits, PartsFit};

/// The frames of a part of a well-formed stream are of the class of the stream, and have a layout
/// in their own slots after as many free bytes as the window has (main_data_begin, ISO/IEC 11172-3
/// and 13818-3, 2.4.2.7).
pub fn part_fits()
    ensures { PartFits }
{}

/// One part of a well-formed stream that has at least one frame can be planned.
pub fn one_part_fits()
    ensures { OnePartFits }
{}

/// Parts of well-formed streams of one class, each with at least one frame, can be planned,
/// concatenated.
pub fn parts_fit()
    ensures { PartsFit }
{}
