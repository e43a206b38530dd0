//! The lines in which `info` says what a file is.
ghost use Rattle.std.specs.Prelude.{◌≡◌, ◌+◌, ◌≤◌, if◌then◌else◌, [], ◌++◌, codes, length, flat_map, option_copied};
ghost use Rattle.sync_survey.specs.Faults.{survey_view};
ghost use Rattle.sync_survey.specs.Survey.{IsSurveyLaidOut};
ghost use Rattle.commands.specs.SingleOutput.{most_frames};
ghost use Rattle.moved_gains.specs.GainExtremes.{joined_extremes};
ghost use Rattle.list_edits.specs.InfoText.{class_line, frames_line, rates_line, main_data_line, number_text, head_line, agrees, is_as_said, but_line, counts_text, played_line, step_range_text, gains_text, both_text, mono_lines, stereo_lines, gain_lines, info_text};

use crate::line::Line;
use crate::lines::{put_class, set_duration};
use crate::totals::{Totals, areas_in, stream_length, totals_in};
use exact_span::{HeadCounts, Played, counts_of};
use frame_header::Class;
use info_header::Info;
use moved_gains::{Gains, joined};
use sync_survey::Survey;

/// What all frames share.
fn class_line(class: Class) -> Line
    ensures { result ≡ class_line class }
{
    let mut line = Line::new();
    line.put(b"\n");
    put_class(&mut line, class);
    line
}

/// How many frames there are, how many of them are lost, and how long they sound.
fn frames_line(class: Class, count: u64, lost: u64) -> Line
    ensures { result ≡ frames_line class count lost }
{
    let mut line = Line::new();
    set_duration(&mut line, class, count);
    line.put_counted(lost, b" lost, ");
    line.put_counted(count, b" frames, ");
    line
}

/// The least and the greatest bit rate in kbit/s, or the only one.
fn rates_line(least: u32, greatest: u32) -> Line
    ensures { result ≡ rates_line least greatest }
{
    let mut line = Line::new();
    line.put(b" kbit/s\n");
    if least != greatest {
        line.put_number(u64::from(greatest));
        line.put(b" to ");
    }
    line.put_number(u64::from(least));
    line
}

/// How many bytes of main data there are, and how many there could be.
fn main_data_line(bytes: u64, areas: u64) -> Line
    ensures { result ≡ main_data_line bytes areas }
{
    let mut line = Line::new();
    line.put_counted(areas, b" bytes are main data\n");
    line.put_counted(bytes, b" of ");
    line
}

/// Puts a number that the head gives before a line.
fn put_said(line: &mut Line, number: Option<u32>, unit: &[u8])
    requires room { length line.old + length unit.now + 22 ≤ 192 }
    ensures text { line.new ≡ number_text number unit.now ++ line.old }
    ensures few { length line.new ≤ length line.old + length unit.now + 22 }
{
    if let Some(number) = number {
        line.put_counted(u64::from(number), unit);
        line.put(b", ");
    }
}

/// The text of the head, and its numbers of frames and bytes.
fn head_line(head: Option<&Info>) -> Line
    ensures { result ≡ head_line (option_copied head.entry) }
{
    let mut line = Line::new();
    let Some(info) = head else {
        line.put(b"no head\n");
        return line;
    };
    line.put(b"\n");
    put_said(&mut line, info.bytes, b" bytes");
    put_said(&mut line, info.frames, b" frames");
    line.put(b" head");
    if info.vbr {
        line.put(b"Xing");
    } else {
        line.put(b"Info");
    }
    line
}

/// Whether the head gives no such number, or this one.
fn agrees(said: Option<u32>, number: u64) -> bool
    ensures { result ≡ agrees said number }
{
    match said {
        Some(said) => u64::from(said) == number,
        None => true,
    }
}

/// Whether both numbers that the head gives, if any, are those of the file.
fn is_as_said(head: Option<&Info>, frames: u64, bytes: u64) -> bool
    ensures { result ≡ is_as_said (option_copied head.entry) frames bytes }
{
    match head {
        Some(info) => agrees(info.frames, frames) && agrees(info.bytes, bytes),
        None => true,
    }
}

/// How many frames and bytes there are, if the head gives other numbers; otherwise empty.
fn here_line(head: Option<&Info>, frames: u64, bytes: u64) -> Line
    ensures { result ≡ (if is_as_said (option_copied head.entry) frames bytes then [] else
        but_line frames bytes) }
{
    let mut line = Line::new();
    if is_as_said(head, frames, bytes) {
        return line;
    }
    line.put_counted(bytes, b" bytes are here\n");
    line.put_counted(frames, b" frames, ");
    line.put(b"but ");
    line
}

/// Puts delay and padding before a line, if the head counts.
fn put_delay(line: &mut Line, counts: Option<HeadCounts>)
    requires { length line.old + 80 ≤ 192 }
    ensures { line.new ≡ counts_text counts ++ line.old }
{
    if let Some(counts) = counts {
        line.put_counted(u64::from(counts.padding), b", ");
        line.put_counted(u64::from(counts.delay), b", padding ");
        line.put(b"delay ");
    }
}

/// Delay and padding, if the head counts, and how many samples are played.
fn played_line(head: Option<&Info>, class: Class, frames: u32) -> Line
    ensures { result ≡ played_line (option_copied head.entry) class frames }
{
    let mut line = Line::new();
    line.put_counted(Played::of(head, class, frames).length(), b" samples\n");
    line.put(b"plays ");
    put_delay(&mut line, counts_of(head));
    line
}

/// Puts by how many steps these gains can move, down and up, before an empty line.
fn put_steps(line: &mut Line, gains: Gains)
    requires { line.old ≡ [] }
    ensures steps { line.new ≡ step_range_text gains }
    ensures few { length line.new ≤ 64 }
{
    line.put(b"\n");
    line.put_number(u64::from(255 - gains.greatest));
    line.put_counted(u64::from(gains.least), b" to +");
    line.put(b"steps -");
}

/// The least and the greatest gain of a channel with this name, and by how many steps they can move.
fn channel_line(name: &[u8], gains: Option<Gains>) -> Line
    requires { length name.now ≤ 8 }
    ensures { result ≡ name.now ++ gains_text gains }
{
    let mut line = Line::new();
    match gains {
        Some(gains) => {
            put_steps(&mut line, gains);
            line.put_counted(u64::from(gains.greatest), b", ");
            line.put_counted(u64::from(gains.least), b" to ");
            line.put(b"gains ");
        }
        None => line.put(b"no gains\n"),
    }
    line.put(name);
    line
}

/// By how many steps the gains of both channels can move, given their least and greatest.
fn both_line(gains: Option<Gains>) -> Line
    ensures { result ≡ codes "both: " ++ both_text gains }
{
    let mut line = Line::new();
    match gains {
        Some(gains) => put_steps(&mut line, gains),
        None => line.put(b"no gains\n"),
    }
    line.put(b"both: ");
    line
}

/// The line of the one channel, which has these gains, and two empty ones.
fn mono_lines(gains: Option<Gains>) -> (Line, Line, Line)
    ensures { result.0 ++ (result.1 ++ (result.2 ++ [])) ≡ flat_map (λ line. line)
        (mono_lines gains) }
{
    (channel_line(b"mono: ", gains), Line::new(), Line::new())
}

/// The lines of the two channels, which have these gains, and the line of both.
fn stereo_lines(left: Option<Gains>, right: Option<Gains>) -> (Line, Line, Line)
    ensures { result.0 ++ (result.1 ++ (result.2 ++ [])) ≡ flat_map (λ line. line)
        (stereo_lines left right (joined_extremes left right)) }
{
    (
        channel_line(b"left: ", left),
        channel_line(b"right: ", right),
        both_line(joined(left, right)),
    )
}

/// The lines of `channels` channels. If there is one, `left` has its gains.
fn gain_lines(channels: u8, left: Option<Gains>, right: Option<Gains>) -> (Line, Line, Line)
    ensures { result.0 ++ (result.1 ++ (result.2 ++ [])) ≡ flat_map (λ line. line)
        (gain_lines channels left right (joined_extremes left right)) }
{
    if channels == 1 {
        mono_lines(left)
    } else {
        stereo_lines(left, right)
    }
}

/// All lines of a surveyed file with this head, at most 10. The others are empty.
pub(crate) fn info_lines(survey: &Survey, head: Option<&Info>) -> [Line; 10]
    requires laid { IsSurveyLaidOut (survey_view survey.now) }
    requires few { length (survey_view survey.now).frames ≤ most_frames }
    ensures { flat_map (λ line. line) result ≡ info_text (option_copied head.entry)
        (survey_view survey.now) }
{
    let class = survey.class();
    let count = survey.frames().len();
    let totals = totals_in(survey);
    let Totals { headers, sides } = totals;
    let (left, right, both) = gain_lines(class.channels, sides.left, sides.right);
    [
        class_line(class),
        frames_line(class, count as u64, sides.lost),
        rates_line(headers.least_rate, headers.greatest_rate),
        main_data_line(sides.main_data, areas_in(survey, &totals)),
        head_line(head),
        here_line(head, count as u64, stream_length(survey, &totals)),
        played_line(head, class, count as u32),
        left,
        right,
        both,
    ]
}
