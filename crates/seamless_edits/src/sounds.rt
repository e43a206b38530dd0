//! Whether frames of inputs sound alike: whether they are the same except for slot, gains and
//! main_data_begin.
ghost use Rattle.std.specs.Prelude.{◌≡◌, ◌<◌, length, map, take, bytes_eq, slice_get, IfOk, IfErr, OnOk};
ghost use Rattle.bit_fields.specs.Bits.{bits, AreBytes};
ghost use Rattle.frame_header.specs.Tables.{class_of, side_size_of};
ghost use Rattle.frame_header.specs.HeaderBits.{header_bits};
ghost use Rattle.side_info.specs.Side.{side_bits, SideFits};
ghost use Rattle.outside.specs.Files.{IfTold};
ghost use Rattle.outside.specs.Seen.{OnlyRead};
ghost use Rattle.sync_survey.specs.MainData.{row_side};
ghost use Rattle.joined_inputs.specs.Inputs.{input_view, input_names};
ghost use Rattle.seamless_edits.specs.Reading.{AreHeld, StopsAmongInputs};
ghost use Rattle.seamless_edits.specs.Sounds.{without_slot, without_gain, compared_side, same_front, IsFramePlace, IsSourceAt, row_at, AreOfOneClass, all_splice_frames, payload_at_place, same_sounds};

use crate::main_data::Source;
use arrayvec::ArrayVec;
use frame_header::{Class, Header};
use joined_inputs::{JoinInput, Stopped};
use outside::Folder;
use reservoir::Window;
use seam_plan::{FramePlace, is_same_header};
use side_info::{Granule, Side};
use sync_survey::Row;

/// Whether two headers are the same except for their slots.
fn same_header(first: &Header, second: &Header) -> bool
    ensures { result ≡ bytes_eq (header_bits (without_slot first.now))
        (header_bits (without_slot second.now)) }
{
    is_same_header(&first.with_slot(second.slot), second)
}

/// The fields of a granule and channel without its global gain.
fn without_gain_of(granule: &Granule) -> Granule
    ensures { result ≡ without_gain granule.now }
{
    let mut bare = *granule;
    bare.global_gain = 0;
    bare
}

/// The fields of both channels of a granule without their global gains.
fn pair_without_gains(pair: &[Granule; 2]) -> [Granule; 2]
    ensures pair { result ≡ map without_gain pair.now }
    ensures two { length pair.now ≡ 2 }
{
    [without_gain_of(&pair[0]), without_gain_of(&pair[1])]
}

/// Side information without gains and main_data_begin.
fn bare_side(side: &Side) -> Side
    ensures { result ≡ compared_side side.now }
{
    let mut bare = side.with_begin(0);
    bare.granules = [
        pair_without_gains(&side.granules[0]),
        pair_without_gains(&side.granules[1]),
    ];
    bare
}

/// Writes the side information of a frame of this class over all the bytes.
fn write_side(class: Class, side: &Side, bytes: &mut [u8])
    requires fits { SideFits class side.now }
    requires size { length bytes.old ≡ side_size_of class }
    ensures bits { bits bytes.new ≡ side_bits class side.now }
    ensures octets { AreBytes bytes.new }
{
    side.write(class, bytes);
}

/// The bytes of this side information of a class, and zeros after them.
fn side_room(class: Class, side: &Side) -> [u8; 32]
    requires { SideFits class side.now }
    ensures bits { bits (take (side_size_of class) result) ≡ side_bits class side.now }
    ensures octets { AreBytes (take (side_size_of class) result) }
{
    let mut room = [0; 32];
    write_side(class, side, &mut room[..class.side_size() as usize]);
    room
}

/// Whether the side information of two frames of a class is the same except for gains and
/// main_data_begin.
fn same_side(class: Class, first: &Side, second: &Side) -> bool
    requires first { SideFits class first.now }
    requires second { SideFits class second.now }
    ensures { result ≡ bytes_eq (side_bits class (compared_side first.now))
        (side_bits class (compared_side second.now)) }
{
    let size = class.side_size() as usize;
    let first = side_room(class, &bare_side(first));
    let second = side_room(class, &bare_side(second));
    first[..size] == second[..size]
}

/// The side information of a frame; all 0 if the frame is lost.
fn side_of(row: &Row) -> Side
    ensures side { result ≡ row_side row.now }
    ensures fits { SideFits (class_of row.now.header) result }
{
    if row.lost() {
        Side::empty()
    } else {
        row.side()
    }
}

/// Whether header and side information of two frames of a class are the same except for slot, gains
/// and main_data_begin.
fn same_front(class: Class, first: &Row, second: &Row) -> bool
    requires first { class_of first.now.header ≡ class }
    requires second { class_of second.now.header ≡ class }
    ensures { result ≡ same_front class first.now second.now }
{
    same_header(&first.header(), &second.header())
        && same_side(class, &side_of(first), &side_of(second))
}

/// The input with this number, counted from 0.
fn source_at<'b>(inputs: &'b [JoinInput<'_>], place: u32) -> Source<'b>
    requires { place < length inputs.now }
    ensures { IsSourceAt (map input_view inputs.now) place result }
{
    let input = &inputs[place as usize];
    Source {
        name: input.name,
        survey: &input.survey,
    }
}

/// The row of a frame of an input.
fn row_at<'b>(inputs: &'b [JoinInput<'_>], place: FramePlace) -> &'b Row
    requires { IsFramePlace (map input_view inputs.now) place }
    ensures { row_at (map input_view inputs.now) place ≡ Some result.now }
{
    &inputs[place.input as usize].survey.frames()[place.frame as usize]
}

/// Puts the main data of a frame into a list, replacing its content.
///
/// # Errors
/// `Read` or `Shrunk` if the input can't be read.
fn main_data<D: Folder>(
    folder: &mut D,
    inputs: &[JoinInput<'_>],
    place: FramePlace,
    window: &mut Window,
    into: &mut ArrayVec<u8, 2048>,
) -> Result<(), Stopped>
    requires held { AreHeld (D.seen folder.old).files (map input_view inputs.now) }
    requires there { IsFramePlace (map input_view inputs.now) place }
    ensures payload { OnOk result (IfTold (D.seen folder.old).files (λ f. into.new.items
        ≡ payload_at_place f (map input_view inputs.now) place)) }
    ensures stopped { IfErr result (StopsAmongInputs (input_names (map input_view inputs.now))
        (D.seen folder.old).files (D.seen folder.old).counts (D.seen folder.new).counts) }
    ensures reads { OnlyRead result (D.seen folder.old) (D.seen folder.new) }
{
    let source = source_at(inputs, place.input);
    match source.main_data(folder, place.frame as usize, window, into) {
        Ok(()) => Ok(()),
        Err(fault) => Err(Stopped {
            number: place.input,
            fault,
        }),
    }
}

/// Whether two frames of inputs are the same except for slot, gains and main_data_begin.
///
/// # Errors
/// `Read` or `Shrunk` if an input can't be read.
pub(crate) fn sound_alike<D: Folder>(
    folder: &mut D,
    inputs: &[JoinInput<'_>],
    first: FramePlace,
    second: FramePlace,
    window: &mut Window,
) -> Result<bool, Stopped>
    requires held { AreHeld (D.seen folder.old).files (map input_view inputs.now) }
    requires one { AreOfOneClass (map input_view inputs.now) }
    requires first { IsFramePlace (map input_view inputs.now) first }
    requires second { IsFramePlace (map input_view inputs.now) second }
    ensures same { IfOk result (λ same. IfTold (D.seen folder.old).files (λ f. same
        ≡ same_sounds (all_splice_frames f (map input_view inputs.now)) first second)) }
    ensures stopped { IfErr result (StopsAmongInputs (input_names (map input_view inputs.now))
        (D.seen folder.old).files (D.seen folder.old).counts (D.seen folder.new).counts) }
    ensures reads { OnlyRead result (D.seen folder.old) (D.seen folder.new) }
{
    let class = inputs[first.input as usize].survey.class();
    if !same_front(class, row_at(inputs, first), row_at(inputs, second)) {
        return Ok(false);
    }
    let mut one = ArrayVec::new();
    let mut other = ArrayVec::new();
    main_data(folder, inputs, first, window, &mut one)?;
    main_data(folder, inputs, second, window, &mut other)?;
    Ok(one.as_slice() == other.as_slice())
}
