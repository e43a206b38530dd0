//! The commands `cut`, `pack` and `cut_exact` over a folder.
ghost use Rattle.cue_sheet.specs.Places.{IsPlace};
ghost use Rattle.exact_span.specs.Places.{IsExactPlace};
ghost use Rattle.commands.specs.Kept.{asked_of};
ghost use Rattle.commands.specs.Runs.{IsRunOf};
ghost use Rattle.cut_edits.specs.Chosen.{cut_command, pack_command};
ghost use Rattle.cut_edits.specs.Exact.{exact_command};

use crate::choice::FrameChoice;
use crate::edit::FrameEdit;
use crate::exact_edit::ExactEdit;
use commands::{EditFault, make_one};
use cue_sheet::Place;
use exact_span::ExactPlace;
use outside::Folder;
use std::alloc::Global;

/// Writes the output: the frames of the input from the position `from` up to, but not including,
/// `to`, with all main data. It consists of the input's ID3v2 blocks before its first frame, an
/// Info frame, these frames in the slots of their plan, and all other blocks. Each frame keeps its
/// own bit rate and padding; with `least` each has the lowest with which there is still room for
/// the main data of all later frames (ISO/IEC 11172-3, 2.4.2.7). A lead-in, one silent frame, comes
/// before them if the main data of the first frames need more room than they have themselves.
///
/// # Errors
/// In this order: `EqualNames(0)` if the names are equal, byte for byte; `Input(0, ..)` with the
/// fault of the survey of the input, which may have 2,900,000 frames; `Range` with the numbers of
/// the two frames and the number of all frames, if there is no frame between the positions, or if
/// the second is after the end. After these nothing was created.
///
/// `Input` with `Read` and `Write(0)` are returned only if a call of that kind failed, `Input` with
/// `Absent` only if the input isn't there, and any other result only if no call failed. `Input(0,
/// ..)` with `Read` or `Shrunk` may also be returned while the output is written; after it, and
/// after `Write(0)`, the output is as it was or holds a prefix of its bytes. `Memory` may be
/// returned once the input was found with a length that it may have, before the output is created,
/// but not from then on.
pub fn cut<D: Folder>(
    alloc: Global,
    folder: &mut D,
    input: &str,
    from: &Place,
    to: &Place,
    least: bool,
    output: &str,
) -> Result<(), EditFault>
    requires from { IsPlace from.now }
    requires to { IsPlace to.now }
    // The input is well-formed, and the output holds at most one lead-in and then exactly the chosen frames of its stream.
    ensures { IsRunOf (asked_of D.keeping (cut_command from.now to.now least input.now output.now))
        (D.seen folder.old)
        (D.seen folder.new) result }
{
    let edit = FrameEdit {
        input,
        choice: FrameChoice::Between(from, to),
        least,
    };
    make_one(alloc, folder, &edit, output)
}

/// Writes the output: all frames of the input, each in order with the lowest bit rate and padding
/// with which there is still room for the main data of all later frames (ISO/IEC 11172-3, 2.4.2.7).
/// It consists of the input's ID3v2 blocks before its first frame, an Info frame with the quality
/// and the extension of the input's head, the frames, and all other blocks.
///
/// # Errors
/// In this order: `EqualNames(0)` if the names are equal, byte for byte; `Input(0, ..)` with the
/// fault of the survey of the input, which may have 2,900,000 frames. After these nothing was
/// created. For all other results see `cut`.
pub fn pack<D: Folder>(
    alloc: Global,
    folder: &mut D,
    input: &str,
    output: &str,
) -> Result<(), EditFault>
    // The input is well-formed, and the output holds its stream.
    ensures { IsRunOf (asked_of D.keeping (pack_command input.now output.now))
        (D.seen folder.old)
        (D.seen folder.new) result }
{
    let edit = FrameEdit {
        input,
        choice: FrameChoice::All,
        least: true,
    };
    make_one(alloc, folder, &edit, output)
}

/// Writes the output, from which players play exactly the samples of the input from the place
/// `from` up to, but not including, `to`: the input's ID3v2 blocks before its first frame or head,
/// an Info frame, the frames that a decoder needs for these samples, each with its own bit rate and
/// padding and with all main data, and all other blocks.
///
/// The samples are those that players play of the input: without the encoder delay and the padding
/// given in its head. The frames are those from the one with the position 1,056 samples before the
/// first chosen sample, so that the decoder's overlap and its filterbank have what they need, up to
/// the one with the last chosen sample. A lead-in, one silent frame, comes before them if their
/// main data need more room than they have themselves, or if the first chosen sample is among the
/// first 529 positions of the input, since a decoder is late by that many. The Info frame has the
/// quality of the input's head and an extension with encoder delay and padding, music length and
/// tag CRC. The rest of the extension is the head's, if the encoder that wrote it gives these
/// numbers; otherwise it has only the name LAME.
///
/// The head's area isn't main data here, since players leave the head out: a frame whose main data
/// begin in it is lost too, if every frame before it is silent or lost.
///
/// # Errors
/// In this order: `EqualNames(0)` if the names are equal, byte for byte; `Input(0, ..)` with the
/// fault of the survey of the input, which may have 2,900,000 frames; `Span` with the numbers of
/// the two samples and the number of all samples that are played, if there is no sample between the
/// places, or if the second is after the end. After these nothing was created. For all other
/// results see `cut`.
pub fn cut_exact<D: Folder>(
    alloc: Global,
    folder: &mut D,
    input: &str,
    from: &ExactPlace,
    to: &ExactPlace,
    output: &str,
) -> Result<(), EditFault>
    requires from { IsExactPlace from.now }
    requires to { IsExactPlace to.now }
    // The input is well-formed, and the output holds at most one lead-in and then exactly the frames of the span.
    ensures { IsRunOf (asked_of D.keeping (exact_command from.now to.now input.now output.now))
        (D.seen folder.old)
        (D.seen folder.new) result }
{
    let edit = ExactEdit { input, from, to };
    make_one(alloc, folder, &edit, output)
}
