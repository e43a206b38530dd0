//! Laws of what is played where delay and padding are written. Each function does nothing: a proof that needs its law calls it.
ghost use Rattle.remove_laws.specs.PlayLaws.{HeardIsPlayed, LengthIsLeft, NothingElseIsPlayed};

/// Where `remove` writes delay and padding, the heads of the input and of its file count. Each heard sample of the input whose
/// place is sample 529 or later is played, at this place.
pub fn heard_is_played()
    ensures { HeardIsPlayed }
{}

/// Where `remove` writes delay and padding, nothing is played of its file but heard samples of the input, each at its place, and
/// lead-ins between two of them.
pub fn nothing_else_is_played()
    ensures { NothingElseIsPlayed }
{}

/// If `remove` writes delay and padding, the place of the first heard sample is sample 529 or later, and no lead-in stands
/// between the parts, as many samples are played of its file as were played of the frames that stay: those that were played of the
/// input, less those of the frames that are taken out.
pub fn what_is_left_is_played()
    ensures { LengthIsLeft }
{}
