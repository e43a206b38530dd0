//! The law of parts that are joined as pieces. The function does nothing: a proof that needs the law calls it.
ghost use Rattle.remove_laws.specs.PieceLaws.{PiecesJoinAsParts};

/// Pieces of a file without counts, each of them frames after the lead-in that they have alone if they want one, joined without
/// seams, are the splice in which `remove` lays these frames as parts that stay: the same frames and lead-ins in the same slots. No
/// piece may begin with a frame that looks like a lead-in but isn't one.
pub fn pieces_join_as_parts()
    ensures { PiecesJoinAsParts }
{}
