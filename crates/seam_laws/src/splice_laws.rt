//! Laws of the splice. Each function does nothing: a proof that needs its law calls it.
ghost use Rattle.seam_laws.specs.SpliceLaws.{FollowersGoOn, PiecesAreOneSplice};

/// An input that follows the one before it continues where the played positions of that one end,
/// and its frames from the first played one on are the last frames of the splice, except for their
/// gains. No played sample of either input is lost, repeated, or taken from another frame.
pub fn followers_go_on()
    ensures { FollowersGoOn }
{}

/// Inputs without counts whose frames all fit together after a whole window, each input after the
/// lead-in that its frames want, are joined to all these frames without the lead-ins. The plan of
/// the splice is thus the plan of these frames.
pub fn pieces_are_one_splice()
    ensures { PiecesAreOneSplice }
{}
