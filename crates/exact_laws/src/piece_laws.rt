//! Laws of exact pieces. Each function does nothing: a proof that needs its law calls it.
ghost use Rattle.exact_laws.specs.PieceLaws.{ExactPlansAreFirst, ExactPiecesPlayAsRead};

/// The plan by which `cut --exact` lays its piece, and `split --exact` each of its pieces, no matter how it is found: of all lists of
/// the frames' own slots into which the main data can be laid, it is the first in the order of areas. If the first position that is
/// wanted is before position 529 of the file, so that a decoder wouldn't play it, only the lists with one lead-in count; otherwise
/// the piece has a lead-in only where no list has room without one.
pub fn exact_plans_are_first()
    ensures { ExactPlansAreFirst }
{}

/// The file that `cut --exact` writes, and that of each piece of `split --exact`, as it is read: by every survey of it, its head plays
/// exactly the chosen samples, each at its own offset in its own frame. The files of all pieces of a split, read in order, play each
/// sample of the recording from the first place to before the last once, in order.
pub fn exact_pieces_play_as_read()
    ensures { ExactPiecesPlayAsRead }
{}
