//! Laws of the definitions. Each function does nothing: a proof that needs its law calls it.
ghost use Rattle.legality.specs.Laws.{LegalIsAccepted, UnfitIsRefused};

/// A command that was asked for makes its outputs exactly where it is legal: no input is an output, each input that is read as a
/// stream is there, no longer than allowed and well-formed, and the choices are legal, together with the sheet or damaged file
/// that they name.
pub fn legal_is_accepted()
    ensures { LegalIsAccepted }
{}

/// A packing with one bit rate alone is refused with `Unfit` exactly where its input is there and well-formed, the bit rate is one of
/// its class, and no list of slots of this bit rate has room for the main data (main_data_begin, ISO/IEC 11172-3 and 13818-3,
/// 2.4.2.7), after a lead-in or without one. The frame is the first, counted from 0, up to which none has, even after a lead-in.
pub fn unfit_is_refused()
    ensures { UnfitIsRefused }
{}
