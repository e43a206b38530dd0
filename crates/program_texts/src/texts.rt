//! The statuses that the program ends with, and the texts and lines that it writes.
ghost use Rattle.std.specs.Prelude.{◌≡◌, [], ◌∷◌, IfErr, codes, map, flat_map};
ghost use Rattle.program_texts.specs.Lines.{Name, Number, Text, line_part_of};
ghost use Rattle.program_texts.specs.Texts.{status_of, input_parts, sheet_parts, curve_parts, refusal_parts, fault_parts, fault_line, bad_word_line, help_text, version_text, fixed_text_command, GotLine};
ghost use Rattle.program_texts.specs.Names.{name_in, names_of_outputs};
ghost use Rattle.outside.specs.Files.{Files};
ghost use Rattle.commands.specs.SentText.{SaysText, answer_fault};

use crate::output_names::Outputs;
use crate::parts::{
    LinePart, LineParts, line, name_line, named_line, number_line, send_line, send_text, text_line,
};
use commands::{EditFault, Refusal, SHEET};
use cue_sheet::CueFault;
use fade_plan::EnvelopeFault;
use outside::{Failed, Sink};
use sync_survey::SurveyFault;

/// The status of a fault of an input: 3 where it isn't
/// there, can't be read or became shorter, otherwise 1.
fn input_status(fault: &SurveyFault) -> u8
    ensures { result ≡ status_of (EditFault.Input 0 fault.now) }
{
    match fault {
        SurveyFault::Absent | SurveyFault::Read | SurveyFault::Shrunk(..) => 3,
        SurveyFault::Memory => 4,
        _ => 1,
    }
}

/// The status of a fault: 3 for a fault of the outside (Input with Absent, Read or Shrunk, Write, and Sent), 4 if memory
/// ran out (Memory), and 1 for every other, by which an input or what was asked of it is refused.
pub fn status(fault: &EditFault) -> u8
    ensures { result ≡ status_of fault.now }
{
    match fault {
        EditFault::EqualNames(_) | EditFault::Refused(_) => 1,
        EditFault::Input(_, fault) => input_status(fault),
        EditFault::Write(_) | EditFault::Sent => 3,
        EditFault::Memory => 4,
    }
}

/// What the program does, form by form, and the statuses.
static HELP: [&str; 59] = [
    "usage: mp3edit COMMAND\n",
    "  list IN                list what is in the MP3 file IN: tags, junk, the Xing or Info frame (head), and frames\n",
    "  info IN                describe IN in a few lines, including how many steps down and up its gains can go\n",
    "  gain [-s s] [-w] -g N IN OUT\n",
    "                         write IN to OUT, N steps of 1.5 dB louder (quieter if N is negative)\n",
    "  gain [-s s] [-w] -l C N IN OUT\n",
    "                         the same for one channel: C is 0 for left, 1 for right\n",
    "                         -s s: leave tags alone, and don't record the change\n",
    "                         -w: wrap gains that would leave the range 0 to 255, instead of refusing the file\n",
    "  gain -u IN OUT         write IN to OUT, undoing all changes that its tag records\n",
    "  cut [--least] IN FROM TO OUT\n",
    "                         write to OUT the frames of IN from FROM up to but not including TO, with all main data\n",
    "                         FROM, TO: a frame number (from 0), a time in minutes, seconds up to 59 and hundredths of\n",
    "                         a second (M.S or M.S.H), or EOF. A number without a dot counts frames: a minute and a\n",
    "                         half is 1.30, not 90\n",
    "                         --least: give each frame the lowest bit rate at which all main data fit\n",
    "  cut --exact IN FROM TO OUT\n",
    "                         write to OUT the frames of IN needed for its samples from FROM up to but not including\n",
    "                         TO, with an Info frame that tells players to play exactly these samples;\n",
    "                         FROM, TO: also seconds (90s or 90.5s), a time with thousandths (M.S.TTT), a sample\n",
    "                         (44100samples), or EOF- and seconds or a time (that long before EOF)\n",
    "  remove IN OUT FROM TO [FROM TO ..]\n",
    "                         write IN to OUT without its frames from each FROM up to but not including the TO behind it,\n",
    "                         up to 50 such stretches; FROM, TO: as for cut --exact, but rounded down to frames\n",
    "  pack IN OUT            write all frames of IN to OUT, each at the lowest bit rate at which all main data fit\n",
    "  pack --constant B IN OUT\n",
    "                         the same with every frame at B kbit/s; refused if that is too low for some frame\n",
    "  pack --floor B IN OUT  the same with no frame below B kbit/s\n",
    "  pack --best IN OUT     the same with the bit rates that take the fewest bytes in all\n",
    "  split IN PREFIX P1 P2 [P3 to P100]\n",
    "                         write to PREFIX01.mp3 the frames of IN from P1 up to P2, to PREFIX02.mp3 those from P2\n",
    "                         up to P3, and so on; P1 to P100 are written like FROM and TO of cut\n",
    "  split IN PREFIX -c CUE the same at the starts of the tracks in the cue sheet CUE; the last piece ends with IN\n",
    "  split --exact IN PREFIX P1 P2 [P3 to P100]\n",
    "                         the same with samples instead of frames; each piece is what cut --exact writes\n",
    "  split --exact IN PREFIX -c CUE\n",
    "                         the same with the samples of each track\n",
    "  join [--seamless] OUT IN1 [IN2 to IN64]\n",
    "                         write to OUT the frames of IN1 to IN64, in order\n",
    "                         --seamless: leave out the frames that only a piece on its own needs, so that pieces in\n",
    "                         order are the whole again, and say what was left out of each input but the first\n",
    "  drill SEED COUNT       generate COUNT frames from the seed SEED, pack them in memory, and print both lengths\n",
    "  fade [--back] IN OUT SHEET\n",
    "                         write IN to OUT, with a volume that changes from frame to frame as SHEET says\n",
    "                         SHEET: lines of a position and steps of 1.5 dB; between lines the steps change evenly\n",
    "                         --back: change by the same steps the other way, which undoes a fade by the same SHEET\n",
    "  salvage IN OUT         write what can be read of the damaged file IN to OUT, and say what is missing;\n",
    "                         a frame whose main data can't be read becomes empty\n",
    "  --help, -h             print this help\n",
    "  --version              print the version\n",
    "  -n COMMAND             run COMMAND, but refuse it and write nothing if a file that it would write exists\n",
    "An output that exists is overwritten without asking. No input is written to.\n",
    "examples:\n",
    "  mp3edit gain -g -2 song.mp3 quieter.mp3       3 dB quieter\n",
    "  mp3edit cut song.mp3 1.30 2.00.50 clip.mp3    from a minute and a half to half a second after two minutes\n",
    "  mp3edit split album.mp3 disc/ -c album.cue    disc/01.mp3, disc/02.mp3 and so on, one for each track\n",
    "status: 0 done; 1 refused; 2 bad arguments; 3 a file is absent, or reading or writing failed;\n",
    "        4 out of memory\n",
    "manual: man mp3edit, and MANUAL.md among the documents (such as /usr/local/share/doc/mp3edit/docs)\n",
];

// Sends a text to standard output.
fn say<T: Sink>(out: &mut T, pieces: &[&str]) -> Result<(), EditFault>
    ensures says { (files : Files) → SaysText
        (fixed_text_command (flat_map (λ piece. piece.now) pieces.now)) files
        (T.heard out.old) (T.heard out.new)
        (answer_fault result) }
    ensures fault { IfErr result (λ fault. fault ≡ EditFault.Sent) }
{
    match send_text(out, pieces) {
        Ok(()) => Ok(()),
        Err(Failed) => Err(EditFault::Sent),
    }
}

/// Sends what the program does, form by form, and the statuses, without allocating memory.
///
/// # Errors
/// `Sent` where a write failed; then a prefix of the text was sent.
#[tactic(auto, unfolding(crate::specs::Texts::help_text))]
pub fn say_help<T: Sink>(out: &mut T) -> Result<(), EditFault>
    ensures says { (files : Files) → SaysText (fixed_text_command help_text) files
        (T.heard out.old) (T.heard out.new)
        (answer_fault result) }
    ensures fault { IfErr result (λ fault. fault ≡ EditFault.Sent) }
{
    say(out, &HELP)
}

/// Sends the program's name and version, without allocating memory.
///
/// # Errors
/// `Sent` where a write failed; then a prefix of the text was sent.
#[tactic(auto, unfolding(crate::specs::Texts::version_text))]
pub fn say_version<T: Sink>(out: &mut T) -> Result<(), EditFault>
    ensures says { (files : Files) → SaysText (fixed_text_command version_text) files
        (T.heard out.old) (T.heard out.new)
        (answer_fault result) }
    ensures fault { IfErr result (λ fault. fault ≡ EditFault.Sent) }
{
    say(out, &["mp3edit 1.0.0\n"])
}

// The line of a check word at an offset that isn't the right one.
fn check_word_line(name: &str, at: u64, said: u16, right: u16) -> LineParts<'_>
    ensures { map line_part_of result.items ≡ Name name.now
        ∷ input_parts (SurveyFault.CheckWord at said right) }
{
    line(&[
        LinePart::Name(name),
        LinePart::Text(": check word at "),
        LinePart::Number(at),
        LinePart::Text(" is "),
        LinePart::Hexadecimal(said),
        LinePart::Text(", right is "),
        LinePart::Hexadecimal(right),
        LinePart::Text("\n"),
    ])
}

// The line of a main_data_begin that is greater than the number of bytes of main data before it.
fn back_pointer_line(name: &str, at: u64, begin: u32, present: u64) -> LineParts<'_>
    ensures { map line_part_of result.items ≡ Name name.now
        ∷ input_parts (SurveyFault.BackPointer at begin present) }
{
    line(&[
        LinePart::Name(name),
        LinePart::Text(": back pointer at "),
        LinePart::Number(at),
        LinePart::Text(" is "),
        LinePart::Number(u64::from(begin)),
        LinePart::Text(", present "),
        LinePart::Number(present),
        LinePart::Text("\n"),
    ])
}

// The line of main data with more bits than there is room for.
fn overrun_line(name: &str, at: u64, bits: u32, room: u32) -> LineParts<'_>
    ensures { map line_part_of result.items ≡ Name name.now
        ∷ input_parts (SurveyFault.Overrun at bits room) }
{
    line(&[
        LinePart::Name(name),
        LinePart::Text(": overrun at "),
        LinePart::Number(at),
        LinePart::Text(", bits "),
        LinePart::Number(u64::from(bits)),
        LinePart::Text(", room "),
        LinePart::Number(u64::from(room)),
        LinePart::Text("\n"),
    ])
}

// The line of a file that became shorter.
fn shrunk_line(name: &str, first: u64, second: u64) -> LineParts<'_>
    ensures { map line_part_of result.items ≡ Name name.now
        ∷ input_parts (SurveyFault.Shrunk first second) }
{
    line(&[
        LinePart::Name(name),
        LinePart::Text(": shrunk from "),
        LinePart::Number(first),
        LinePart::Text(" to "),
        LinePart::Number(second),
        LinePart::Text("\n"),
    ])
}

// The parts of the line of a fault of the input with this name. Running
// out of memory isn't a fault of an input and never comes here.
fn input_parts<'a>(name: &'a str, fault: &SurveyFault) -> LineParts<'a>
    ensures { map line_part_of result.items ≡ Name name.now ∷ input_parts fault.now }
{
    match *fault {
        SurveyFault::Absent => name_line(name, ": absent\n"),
        SurveyFault::TooLong(size) => named_line(name, ": too long, ", size, " bytes\n"),
        SurveyFault::NoFrame(at) => named_line(name, ": no frame at ", at, "\n"),
        SurveyFault::LostSync(at) => named_line(name, ": lost synchronisation at ", at, "\n"),
        SurveyFault::Truncated(at) => named_line(name, ": truncated at ", at, "\n"),
        SurveyFault::FreeFormat(at) => named_line(name, ": free format at ", at, "\n"),
        SurveyFault::Mixed(at) => named_line(name, ": mixed class at ", at, "\n"),
        SurveyFault::CheckWord(at, said, right) => check_word_line(name, at, said, right),
        SurveyFault::BackPointer(at, begin, present) => {
            back_pointer_line(name, at, begin, present)
        }
        SurveyFault::Overlap(at) => named_line(name, ": overlap at ", at, "\n"),
        SurveyFault::Overrun(at, bits, room) => overrun_line(name, at, bits, room),
        SurveyFault::TooManyFrames(at) => named_line(name, ": too many frames at ", at, "\n"),
        SurveyFault::Shrunk(first, second) => shrunk_line(name, first, second),
        SurveyFault::Read => name_line(name, ": read fault\n"),
        SurveyFault::Memory => line(&[LinePart::Name(name)]),
    }
}

// The name at a place of the list, counted from 0; an empty one where there is none.
fn name_in<'a>(names: &[&'a str], place: u32) -> &'a str
    ensures { result.now ≡ name_in (map (λ name. name.now) names.now) place }
{
    names.get(place as usize).copied().unwrap_or("")
}

// The line of a gain that would leave its range.
fn gain_line<'a>(offset: u64, granule: u8, channel: u8, gain: u8) -> LineParts<'a>
    ensures { map line_part_of result.items ≡ refusal_parts
        (Refusal.GainRange offset granule channel gain) [] [] }
{
    line(&[
        LinePart::Text("gain "),
        LinePart::Number(u64::from(gain)),
        LinePart::Text(" out of range at "),
        LinePart::Number(offset),
        LinePart::Text(", granule "),
        LinePart::Number(u64::from(granule)),
        LinePart::Text(", channel "),
        LinePart::Number(u64::from(channel)),
        LinePart::Text("\n"),
    ])
}

// The line of a sum of steps that an undo item can't have.
fn undo_sum_line<'a>(sum: i32) -> LineParts<'a>
    ensures { map line_part_of result.items ≡ refusal_parts (Refusal.UndoRange sum) [] [] }
{
    line(&[
        LinePart::Text("undo sum "),
        LinePart::Signed(sum),
        LinePart::Text(" is out of range\n"),
    ])
}

// The line of two positions without a frame between them, or two places without a sample between
// them, or with one of them after the end. The last text names what is counted.
fn range_line(from: u64, to: u64, all: u64, end: &str) -> LineParts<'_>
    ensures { map line_part_of result.items ≡ Text (codes "range ") ∷ Number from
        ∷ Text (codes " to ") ∷ Number to
        ∷ Text (codes " of ") ∷ Number all ∷ Text end.now ∷ [] }
{
    line(&[
        LinePart::Text("range "),
        LinePart::Number(from),
        LinePart::Text(" to "),
        LinePart::Number(to),
        LinePart::Text(" of "),
        LinePart::Number(all),
        LinePart::Text(end),
    ])
}

// The parts of the line of a fault of the cue sheet with this name.
// Running out of memory isn't a fault of a sheet and never comes here.
fn sheet_parts<'a>(name: &'a str, fault: &CueFault) -> LineParts<'a>
    ensures { map line_part_of result.items ≡ Name name.now ∷ sheet_parts fault.now }
{
    match *fault {
        CueFault::Line(number) => named_line(name, ": bad line ", u64::from(number), "\n"),
        CueFault::NotRising(number) => {
            named_line(name, ": not rising at line ", u64::from(number), "\n")
        }
        CueFault::NoTracks => name_line(name, ": no tracks\n"),
        CueFault::Memory => line(&[LinePart::Name(name)]),
    }
}

// The parts of the line of a fault of the sheet of a fade with this name. Running out of memory
// never comes here.
fn curve_parts<'a>(name: &'a str, fault: &EnvelopeFault) -> LineParts<'a>
    ensures { map line_part_of result.items ≡ Name name.now ∷ curve_parts fault.now }
{
    match *fault {
        EnvelopeFault::Line(number) => named_line(name, ": bad line ", u64::from(number), "\n"),
        EnvelopeFault::NoPoints => name_line(name, ": no points\n"),
        EnvelopeFault::Memory => line(&[LinePart::Name(name)]),
    }
}

// The parts of the line of a refusal, by the names of the inputs and of the outputs.
fn refusal_parts<'a>(refusal: &Refusal, inputs: &[&'a str], outputs: Outputs<'a>) -> LineParts<'a>
    ensures { map line_part_of result.items ≡ refusal_parts refusal.now
        (map (λ name. name.now) inputs.now) (names_of_outputs outputs.entry) }
{
    let sheet = name_in(inputs, SHEET);
    match *refusal {
        Refusal::GainRange(offset, granule, channel, gain) => {
            gain_line(offset, granule, channel, gain)
        }
        Refusal::Mono => text_line("one channel only\n"),
        Refusal::Joint(offset) => number_line("joint stereo at ", offset, "\n"),
        Refusal::TagTooLarge(length) => number_line("tag too large, ", length, "\n"),
        Refusal::BadTag(offset) => number_line("bad tag at ", offset, "\n"),
        Refusal::NoUndo => text_line("no undo item\n"),
        Refusal::BadUndo(offset) => number_line("bad undo item at ", offset, "\n"),
        Refusal::UndoRange(sum) => undo_sum_line(sum),
        Refusal::OutputTooLong(length) => number_line("output too long, ", length, " bytes\n"),
        Refusal::Range(from, to, frames) => range_line(from, to, frames, " frames\n"),
        Refusal::Span(from, to, samples) => range_line(from, to, samples, " samples\n"),
        Refusal::NoRate(rate) => number_line("no rate ", u64::from(rate), "\n"),
        Refusal::Unfit(frame) => number_line("frame ", u64::from(frame), " does not fit\n"),
        Refusal::Differ(place) => {
            name_line(
                name_in(inputs, place),
                ": other class than the first input\n",
            )
        }
        Refusal::SheetTooLarge(size) => named_line(sheet, ": sheet too large, ", size, " bytes\n"),
        Refusal::Sheet(fault) => sheet_parts(sheet, &fault),
        Refusal::Curve(fault) => curve_parts(sheet, &fault),
        Refusal::CurveNotRising(number) => {
            named_line(sheet, ": not rising at line ", u64::from(number), "\n")
        }
        Refusal::Exists(place) => line(&[outputs.named(place), LinePart::Text(": exists\n")]),
    }
}

// The parts of the line of a fault, by the names of the inputs and of the outputs.
fn fault_parts<'a>(fault: &EditFault, inputs: &[&'a str], outputs: Outputs<'a>) -> LineParts<'a>
    ensures { map line_part_of result.items ≡ fault_parts fault.now
        (map (λ name. name.now) inputs.now) (names_of_outputs outputs.entry) }
{
    match *fault {
        EditFault::EqualNames(place) => name_line(name_in(inputs, place), ": input is an output\n"),
        EditFault::Input(place, fault) => input_parts(name_in(inputs, place), &fault),
        EditFault::Refused(refusal) => refusal_parts(&refusal, inputs, outputs),
        EditFault::Write(place) => line(&[outputs.named(place), LinePart::Text(": write fault\n")]),
        EditFault::Sent => text_line("standard output: write fault\n"),
        EditFault::Memory => text_line("out of memory\n"),
    }
}

/// Sends the line of a fault, by the names of the inputs and of the outputs, without allocating
/// memory. It stops at the first write that fails, and doesn't return that one did.
///
/// NAME is the name of the input or, for Exists and Write, of the output at the place in the fault; for SheetTooLarge and the
/// faults of a sheet, Line, NotRising, NoTracks and NoPoints, it is the name of input 1. O is an offset in bytes, N a number of
/// bytes or frames, L a line's number from 1, I a frame's number from 0, G a granule's and C a channel's from 0, and F and T
/// are frame numbers too. In UndoRange S is a number of steps, with `-` before it where it is negative; in Shrunk F and S are
/// lengths in bytes; in NoRate B is a bit rate in kbit/s as it was asked for, in BackPointer a main_data_begin, and P the bytes
/// of main data before it; in Overrun B and R are bits; V is a gain.
///
/// | fault | line |
/// |---|---|
/// | EqualNames | `NAME: input is an output` |
/// | Absent | `NAME: absent` |
/// | TooLong(N) | `NAME: too long, N bytes` |
/// | NoFrame(O) | `NAME: no frame at O` |
/// | LostSync(O) | `NAME: lost synchronisation at O` |
/// | Truncated(O) | `NAME: truncated at O` |
/// | FreeFormat(O) | `NAME: free format at O` |
/// | Mixed(O) | `NAME: mixed class at O` |
/// | CheckWord(O, S, R) | `NAME: check word at O is S, right is R`, S and R as four lower-case hexadecimal digits |
/// | BackPointer(O, B, P) | `NAME: back pointer at O is B, present P` |
/// | Overlap(O) | `NAME: overlap at O` |
/// | Overrun(O, B, R) | `NAME: overrun at O, bits B, room R` |
/// | TooManyFrames(O) | `NAME: too many frames at O` |
/// | Read | `NAME: read fault` |
/// | Shrunk(F, S) | `NAME: shrunk from F to S` |
/// | GainRange(O, G, C, V) | `gain V out of range at O, granule G, channel C` |
/// | Mono | `one channel only` |
/// | Joint(O) | `joint stereo at O` |
/// | TagTooLarge(N) | `tag too large, N` |
/// | BadTag(O) | `bad tag at O` |
/// | NoUndo | `no undo item` |
/// | BadUndo(O) | `bad undo item at O` |
/// | UndoRange(S) | `undo sum S is out of range` |
/// | OutputTooLong(N) | `output too long, N bytes` |
/// | Range(F, T, N) | `range F to T of N frames` |
/// | Span(F, T, N) | `range F to T of N samples` |
/// | NoRate(B) | `no rate B` |
/// | Unfit(I) | `frame I does not fit` |
/// | Differ | `NAME: other class than the first input` |
/// | SheetTooLarge(N) | `NAME: sheet too large, N bytes` |
/// | Line(L) | `NAME: bad line L` |
/// | NotRising(L) | `NAME: not rising at line L` |
/// | NoTracks | `NAME: no tracks` |
/// | NoPoints | `NAME: no points` |
/// | Exists | `NAME: exists` |
/// | Write | `NAME: write fault` |
/// | Sent | `standard output: write fault` |
/// | Memory | `out of memory` |
pub fn send_fault<E: Sink>(err: &mut E, fault: &EditFault, inputs: &[&str], outputs: &Outputs)
    ensures { GotLine (E.heard err.old).sent (E.heard err.new).sent (E.heard err.old).faults
        (E.heard err.new).faults (fault_line fault.now (map (λ name. name.now) inputs.now)
        (names_of_outputs outputs.now)) }
{
    send_line(err, fault_parts(fault, inputs, *outputs).as_slice());
}

/// Sends the line `bad word K`, K the place of the word counted from 1, without allocating memory.
/// It stops at the first write that fails, and doesn't return that one did.
pub fn send_bad_word<E: Sink>(err: &mut E, word: u32)
    ensures { GotLine (E.heard err.old).sent (E.heard err.new).sent (E.heard err.old).faults
        (E.heard err.new).faults (bad_word_line word) }
{
    send_line(
        err,
        number_line("bad word ", u64::from(word), "\n").as_slice(),
    );
}
