//! How each input begins: its head, and whether the side information of its first frame is blank.
ghost use Rattle.std.specs.Prelude.{◌≡◌, ◌==◌, ◌≤◌, length, map, IfOk, IfErr};
ghost use Rattle.std.specs.List.{list_all};
ghost use Rattle.bit_fields.specs.Bits.{bits};
ghost use Rattle.outside.specs.Files.{IsFileThere};
ghost use Rattle.outside.specs.Seen.{OnFile, OnlyRead};
ghost use Rattle.sync_survey.specs.Faults.{survey_view};
ghost use Rattle.sync_survey.specs.Survey.{IsSurveyLaidOut};
ghost use Rattle.laying.specs.Surveys.{CanBeRelaid};
ghost use Rattle.laying.specs.KeptFields.{fields_of_head};
ghost use Rattle.joined_inputs.specs.Inputs.{input_view, input_names, HasJoinNumbers};
ghost use Rattle.seamless_edits.specs.Seamless.{is_side_blank, begins_blank};
ghost use Rattle.seamless_edits.specs.Beginnings.{AreBeginnings};
ghost use Rattle.seamless_edits.specs.Reading.{AreHeld, IsInputReadFault, StopsAtInput};

use commands::EditFault;
use info_header::Info;
use joined_inputs::{JoinInput, Stopped, input_at};
use laying::head_fields;
use outside::Folder;
use std::alloc::Global;
use sync_survey::{Row, Survey};

/// How an input begins: the fields of its head, if it has one, and whether all bits of the side information of its first frame
/// are 0, as it is in the file.
#[derive(Clone, Copy)]
pub(crate) struct Beginning {
    pub head: Option<Info>,
    pub blank: bool,
}

/// Whether all bytes are 0.
fn are_zeros(bytes: &[u8]) -> bool
    ensures { result ≡ list_all (λ bit. bit == 0) (bits bytes.now) }
{
    for byte in bytes {
        if *byte != 0 {
            return false;
        }
    }
    true
}

/// Whether all bits of the side information of a frame are 0.
fn is_blank(row: &Row) -> bool
    ensures { result ≡ is_side_blank row.now }
{
    let class = row.front().class();
    let mut room = [0; 32];
    let bytes = &mut room[..class.side_size() as usize];
    row.side().write(class, bytes);
    are_zeros(bytes)
}

/// Whether all bits of the side information of the first of these frames are 0; false if there is
/// no frame.
fn begins_blank(rows: &[Row]) -> bool
    ensures { result ≡ begins_blank rows.now }
{
    match rows {
        [] => false,
        [first, ..] => is_blank(first),
    }
}

/// The fields of the head of the input with the number `place`, if it has one. The files stay.
///
/// # Errors
/// `Read` and `Shrunk` if the frame of the head could not be read.
fn head_of<D: Folder>(
    folder: &mut D,
    name: &str,
    place: u32,
    survey: &Survey,
) -> Result<Option<Info>, Stopped>
    requires there { IsFileThere (D.seen folder.old).files name.now }
    requires laid { IsSurveyLaidOut (survey_view survey.now) }
    requires exact { OnFile (D.seen folder.old) name.now
        (λ file. CanBeRelaid file (survey_view survey.now)) }
    ensures head { IfOk result (λ head. OnFile (D.seen folder.old) name.now
        (λ file. head ≡ fields_of_head file (survey_view survey.now).head)) }
    ensures stopped { IfErr result (StopsAtInput place name.now (D.seen folder.old).files
        (D.seen folder.old).counts (D.seen folder.new).counts) }
    ensures reads { OnlyRead result (D.seen folder.old) (D.seen folder.new) }
{
    match head_fields(folder, name, survey) {
        Ok(head) => Ok(head),
        Err(fault) => Err(Stopped {
            number: place,
            fault,
        }),
    }
}

/// How each input begins, in order. The files stay.
///
/// # Errors
/// `Input` with the number of an input and `Read` or `Shrunk`, if its head could not be read;
/// `Memory`.
pub(crate) fn beginnings_of<D: Folder>(
    alloc: Global,
    folder: &mut D,
    inputs: &[JoinInput<'_>],
) -> Result<Vec<Beginning>, EditFault>
    requires few { length inputs.now ≤ 64 }
    requires held { AreHeld (D.seen folder.old).files (map input_view inputs.now) }
    ensures begun { IfOk result
        (λ bs. AreBeginnings (D.seen folder.old).files (map input_view inputs.now) bs.items) }
    ensures refused { IfErr result (IsInputReadFault (input_names (map input_view inputs.now))
        (D.seen folder.old)
        (D.seen folder.new)) }
    ensures numbers { IfErr result (HasJoinNumbers (length inputs.now)) }
    ensures reads { OnlyRead result (D.seen folder.old) (D.seen folder.new) }
{
    let mut beginnings = Vec::new(alloc);
    for place in 0..inputs.len() {
        let JoinInput { name, survey, .. } = input_at(inputs, place);
        let head = head_of(folder, name, place as u32, survey)?;
        let blank = begins_blank(survey.frames());
        beginnings.push(Beginning { head, blank })?;
    }
    Ok(beginnings)
}
