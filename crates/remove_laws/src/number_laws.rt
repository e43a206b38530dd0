//! Laws of the delay and the padding that are written. Each function does nothing: a proof that needs its law calls it.
ghost use Rattle.remove_laws.specs.NumberLaws.{HeardGoesOn, HeardIsFirstToLast, NumbersAreKept};

/// Where `remove` writes delay and padding, its file is well-formed, and the head counts as many frames as are planned. As the
/// file is read, players play it from the place of the first heard sample of the input to that of the last. No head names a start
/// before sample 529, so they play from there if the place of the first is earlier.
pub fn numbers_are_kept()
    ensures { NumbersAreKept }
{}

/// A sample of the input is heard if it is played and its frame stays, and its place is at its own offset in this frame of the
/// file that `remove` writes. What `remove` takes for the heard samples, for its delay and its padding, goes from the place of one
/// of them to that of another, and the places of all others are between these two.
pub fn heard_is_first_to_last()
    ensures { HeardIsFirstToLast }
{}

/// What is heard where some frames are written, and others behind them, is what is heard of both, from the first place of the ones
/// to the last of the others; so the places of the parts can be found part by part.
pub fn heard_goes_on()
    ensures { HeardGoesOn }
{}
