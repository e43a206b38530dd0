//! Laws of files that were cut short. Each function does nothing: a proof that needs its law calls it.
ghost use Rattle.file_laws.specs.CutLaws.{PrefixFault};

/// For every well-formed file without junk, and every count of bytes up to its length: the prefix of
/// `count` bytes has no fault, or its first fault is `NoFrame`, `Truncated` or `LostSync`. If it has none,
/// its stream is the first frames of the file's stream. As many frames are allowed as the file has. The law
/// doesn't hold for a file with junk, since a false frame in the junk may end where the file was cut.
pub fn prefix_fault()
    ensures { PrefixFault }
{}
