//! Laws of the definitions that the contracts cite. Each function does nothing: a proof that needs
//! its law calls it.
ghost use Rattle.exact_span.specs.Laws.{WordsGoOn, SealedFrames, ExtensionsSay, SpansFit, SamplesKeepPlaces, SpansAreWarm, PiecesAreTheWhole};

/// The CRC of bytes continues the CRC of the bytes before them.
pub fn words_go_on()
    ensures { WordsGoOn }
{}

/// A sealed Info frame is the Info frame of the same fields with music length and tag CRC in the
/// extension, and has the same delay and padding.
pub fn sealed_frames_are_info_frames()
    ensures { SealedFrames }
{}

/// The extension that is written begins with the name of an encoder that counts, and has the delay
/// and the padding for which it was made.
pub fn extensions_say_their_numbers()
    ensures { ExtensionsSay }
{}

/// The span of samples of a file has a frame and no frame that the file lacks. Its delay is at most
/// 2,830, and its padding from 529 to 1,680.
pub fn spans_fit()
    ensures { SpansFit }
{}

/// The frames of a span, after its lead-ins and an Info head with their number, its delay and its
/// padding, play as many samples as were chosen, and sample k of these and sample a + k of the file
/// are at one offset in one and the same frame.
pub fn samples_keep_their_places()
    ensures { SamplesKeepPlaces }
{}

/// The frames of a span have every granule on which its positions depend: for each position, from
/// the granule before the one that the position 480 earlier is in, up to its own. Where the frames
/// aren't the first of the file, the first wanted position is at least 1,056 after their beginning.
pub fn spans_are_warm()
    ensures { SpansAreWarm }
{}

/// The pieces between ascending points, joined, have each sample from the first point to the last
/// once, in order.
pub fn pieces_are_the_whole()
    ensures { PiecesAreTheWhole }
{}
