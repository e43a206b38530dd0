//! The split commands over a folder.
ghost use Rattle.commands.specs.Kept.{asked_of};
ghost use Rattle.commands.specs.Runs.{IsRunOf};
ghost use Rattle.requests.specs.Names.{piece_names};
ghost use Rattle.split_edits.specs.Cutting.{split_command, IsProperCutting};
ghost use Rattle.split_edits.specs.Split.{split_command_of, split_exact_command_of, ArePoints, AreExactPoints};

use crate::cut::Cut;
use crate::exact_points::ExactPoints;
use crate::piece::make_pieces;
use crate::points::Points;
use crate::writing::write_pieces;
use commands::{EditFault, Inputs, MOST_FRAMES, OutputNames, ask_all, survey_at};
use laying::RelayBuffers;
use outside::Folder;
use requests::is_piece_name;
use std::alloc::Global;

/// The names that the pieces can have, however many there are.
#[derive(Clone, Copy)]
struct PieceNames<'a> {
    prefix: &'a str,
}

impl<'a> OutputNames for PieceNames<'a> {
    ghost names = { λ pieces. piece_names pieces.prefix.now };

    fn contain(&self, name: &str) -> bool {
        is_piece_name(self.prefix, name)
    }
}

/// Cuts the input: creates and writes a file for each piece, from each place to the next.
///
/// # Errors
/// As `split`, except for the refusals of its places, which are those of `Cut::select`, and for the
/// head of the input, whose frame is read after the survey if pieces need it.
fn split_by<C: Cut, D: Folder>(
    alloc: Global,
    folder: &mut D,
    input: &str,
    cut: &C,
    prefix: &str,
) -> Result<(), EditFault>
    requires legal { C.IsLegal cut.now }
    requires proper { IsProperCutting (C.cutting cut.now) }
    ensures { IsRunOf (asked_of D.keeping (split_command (C.cutting cut.now) input.now prefix.now))
        (D.seen folder.old)
        (D.seen folder.new) result }
{
    let inputs = Inputs {
        source: input,
        sheet: cut.sheet(),
    };
    if let Some(place) = inputs.clash(PieceNames { prefix }) {
        return Err(EditFault::EqualNames(place));
    }
    let survey = survey_at(alloc, folder, input, 0, MOST_FRAMES)?;
    let source = cut.read(folder, input, survey)?;
    let places = cut.places(alloc, folder)?;
    let pieces = make_pieces(alloc, cut, &source, places.as_slice(), prefix)?;
    let mut buffers = RelayBuffers::new(alloc, source.survey.class())?;
    ask_all(folder, pieces.as_slice())?;
    write_pieces(
        folder,
        input,
        &source.survey,
        pieces.as_slice(),
        &mut buffers,
    )
}

/// Writes the pieces of the input: the frames from each position up to, but not including, the
/// next, with all main data. Each is a file as `edits::cut` writes it when it keeps the slots of
/// the frames: the ID3v2 blocks of the input before its first frame, an Info frame, these frames in
/// the slots of their plan, with a lead-in if the first of them need more room for their main data
/// than they have themselves, and all other blocks. The name of a piece is the prefix, two decimal
/// digits of its number, which is counted from 1, and `.mp3`.
///
/// # Errors
/// In this order: `EqualNames` with 0 if the name of the input is one of the 99 names with the
/// prefix, byte for byte, however many pieces there are, and with 1 if the name of the sheet is;
/// `Input(0, ..)` with the fault of the survey of the input, which may have 2,900,000 frames; for a
/// sheet, which is input 1, `Input(1, ..)` with `Absent`, `Read` and `Shrunk`, `SheetTooLarge` with
/// its length if it has more than 65,536 bytes, and `Sheet` with its first fault; `Range` with the
/// numbers of the two frames and the number of all frames, for the first position and its next
/// between which there is no frame, or if the next is after the end; then, in a folder that keeps
/// what is there, `Refused(Exists)` with the number of the first piece, counted from 0, whose name is
/// there, and `Write` with that of one for which the call that asks failed. After these nothing was
/// created.
///
/// `Input` with `Read` and `Write` are returned only if a call of that kind failed, `Input` with
/// `Absent` only if that input isn't there, and any other result only if no call failed. `Write`
/// has the number of the piece, counted from 0. After it, and after `Input(0, ..)` with `Read` or
/// `Shrunk` if an output was created, the pieces before are whole, and this one is as it was or
/// holds a prefix of its bytes, and after `Write` not all of them. `Memory` may be returned once
/// the input was found with a length that it may have, before the first output is created, but not
/// from then on.
pub fn split<D: Folder>(
    alloc: Global,
    folder: &mut D,
    input: &str,
    points: &Points<'_>,
    prefix: &str,
) -> Result<(), EditFault>
    requires { ArePoints points.now }
    // The input is well-formed, and each piece holds at most one lead-in and then exactly its frames of the input's stream.
    ensures { IsRunOf (asked_of D.keeping (split_command_of points.now input.now prefix.now))
        (D.seen folder.old)
        (D.seen folder.new) result }
{
    split_by(alloc, folder, input, points, prefix)
}

/// Writes the pieces of the input, from each of which players play exactly the samples from one
/// place up to, but not including, the next. Each is a file as `edits::cut_exact` writes it, so
/// neighbouring pieces share the frames that a decoder needs for both; played in order, they are
/// the samples of the input from the first place to the last, each once. A start in a cue sheet is
/// the greatest whole number of samples that take no longer than its time. The names of the pieces
/// are as in `split`.
///
/// # Errors
/// As `split`, and in its order, except for `Span` instead of `Range`: with the numbers of the two
/// samples and the number of all samples that are played, for the first place and its next between
/// which there is no sample, or if the next is after the end.
pub fn split_exact<D: Folder>(
    alloc: Global,
    folder: &mut D,
    input: &str,
    points: &ExactPoints<'_>,
    prefix: &str,
) -> Result<(), EditFault>
    requires { AreExactPoints points.now }
    // The input is well-formed, and each piece holds at most one lead-in and then exactly the frames of its span.
    ensures { IsRunOf (asked_of D.keeping (split_exact_command_of points.now input.now prefix.now))
        (D.seen folder.old)
        (D.seen folder.new) result }
{
    split_by(alloc, folder, input, points, prefix)
}
