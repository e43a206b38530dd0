//! Laws of the tag of a file. Each function does nothing: a proof that needs its law calls it.
ghost use Rattle.moved_gains.specs.TagLaws.{RetaggedSurvey, SameStream, OwnTag};

/// A file without fault and without junk still has no fault with another tag, or none, instead of
/// its tag: its survey then finds the same frames, head and blocks at their new offsets, and the
/// new block.
pub fn retagged_survey()
    ensures { RetaggedSurvey }
{}

/// The file with another tag holds the same stream.
pub fn same_stream()
    ensures { SameStream }
{}

/// With the bytes of its own tag instead of its tag, a file is unchanged. If the tag can be read,
/// they are the tag's bytes.
pub fn own_tag()
    ensures { OwnTag }
{}
