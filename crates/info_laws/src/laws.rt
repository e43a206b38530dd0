//! Laws of the text of `info`. Each function does nothing: a proof that needs its law calls it.
ghost use Rattle.info_laws.specs.RoomLaw.{MainDataFit};
ghost use Rattle.info_laws.specs.StepText.{InfoSaysTheSteps};
ghost use Rattle.info_laws.specs.WrittenText.{CountedTextsAgree, PieceTextsAgree, WrittenTextsAgree};

/// The steps that `info` prints are exactly those that `gain` takes. The text of every file without fault ends with a line for
/// its one channel, or with one for each of two channels and one for both. Each ends with `steps -D to +U`, or with `no gains`,
/// the latter exactly if no granule of these channels has main data. Moved without wrap, a gain of these channels leaves the
/// range from 0 to 255 exactly if the steps aren't from -D to U, and `gain` without a note takes exactly these steps, if the
/// channels may change; with `no gains` it takes any.
pub fn info_says_the_steps()
    ensures { InfoSaysTheSteps }
{}

/// The main data of a file without fault have at most as many bytes as the areas of its head and its frames: they don't
/// overlap, and each frame's end within its own area.
pub fn main_data_fit()
    ensures { MainDataFit }
{}

/// The text of a file of frames with all main data laid into their areas, behind an Info frame that gives their numbers, has no
/// line `but`: its sixth line says how many samples are played, and it has seven lines for one channel and nine for two.
pub fn counted_texts_agree()
    ensures { CountedTextsAgree }
{}

/// So has the text of every file that `cut`, `split`, `join`, `pack` or `salvage` writes, in each of their forms.
pub fn written_texts_agree()
    ensures { WrittenTextsAgree }
{}

/// The text of what `cut --exact` writes of the samples from a to before b, and of each piece of an exact split, says `plays N
/// samples` with the number b - a, by what is read of the written file.
pub fn piece_texts_agree()
    ensures { PieceTextsAgree }
{}
