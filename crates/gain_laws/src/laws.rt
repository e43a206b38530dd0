//! Changes of gains can be undone: by one undo, or by as many steps the other way. They change
//! nothing else.
ghost use Rattle.gain_laws.specs.GivenBack.{UndoGivesBack, OppositeGivesBack};
ghost use Rattle.gain_laws.specs.GainKept.{GainKeepsAll, UndoKeepsAll};

/// A law and no work: one undo takes back all changes of gains that were accepted in order, with or
/// without wrap, for a well-formed file whose tag can be read and has no undo item. The undo is
/// accepted, and gives the file without its junk, and without its tag if that had no item. If the
/// file has no junk, and no tag or one with an item, it gives the file itself, byte for byte. The
/// stream comes back in every case. A proof that needs it calls this function.
pub fn undo_gives_back()
    ensures { UndoGivesBack }
{}

/// A law and no work: after a change of gains without a note, with or without wrap, the opposite change is accepted. It gives
/// the file from before the first, byte for byte, except its junk. A proof that needs it calls this function.
#[tactic(auto, using(crate::proofs::OppositeStepLemmas::steps_back))]
pub fn opposite_gives_back()
    ensures { OppositeGivesBack }
{}

/// A law and no work: the output of `gain` and `gain -u` differs from the input in gains, check
/// words of protected frames, the tag and junk that is left out, and in nothing else; without tags
/// `gain` leaves the tag too. A proof that needs it calls this function.
pub fn gains_keep_all()
    ensures gain { GainKeepsAll }
    ensures undo { UndoKeepsAll }
{}
