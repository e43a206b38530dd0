//! Laws of packing with the slots of some bit rates, and in the fewest bytes. Each function does nothing: a proof that needs
//! its law calls it.
ghost use Rattle.pack_edits.specs.Laws.{FloorsFit, NeverLonger, FewestBytes};

/// If all bit rates from one on are allowed, no file is ever refused with `Unfit`.
pub fn floors_fit()
    ensures { FloorsFit }
{}

/// If `pack --best` writes a file, `pack` writes one for the same input, and the file of `pack
/// --best` is at most as long.
pub fn never_longer()
    ensures { NeverLonger }
{}

/// What `pack --best` writes is the file of all frames of the input in the slots of a plan by which
/// their main data can be laid (main_data_begin, ISO/IEC 11172-3 and 13818-3, 2.4.2.7). With any
/// other plan by which they can be laid, with its lead-in where this one has it or with none, the
/// file would be at least as long.
pub fn fewest_bytes()
    ensures { FewestBytes }
{}
