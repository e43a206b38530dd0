//! Laws of a file that got another tag. Each function does nothing: a proof that needs its law calls it.
ghost use Rattle.gain_laws.specs.NewTagLaws.{TagAgain, TaggedBytes};

/// A tag that was put into a file instead of its first is then the file's tag, and yet another tag
/// replaces it as it would replace the first.
pub fn tag_again()
    ensures { TagAgain }
{}

/// The length of the file with another tag, and that it consists of bytes.
pub fn tagged_bytes()
    ensures { TaggedBytes }
{}
