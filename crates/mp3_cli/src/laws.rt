//! The law of the definitions. The function does nothing: a proof that needs the law calls it.
ghost use Rattle.mp3_cli.specs.Run.{LegalWordsAreAccepted};

/// For every list of words and all files: it is legal exactly where the words ask for a command that doesn't refuse the files.
pub fn legal_is_accepted()
    ensures { LegalWordsAreAccepted }
{}
