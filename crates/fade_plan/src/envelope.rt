//! Envelopes: the points of a sheet.
ghost use Rattle.std.specs.Prelude.{◌≡◌, ◌≤◌, ◌++◌, ◌⊎◌, length, map, IfOk, OnOk, MatchResult, Ok, Err};
ghost use Rattle.std.specs.List.{All};
ghost use Rattle.fade_plan.specs.declared.envelope_fault.EnvelopeFault.TheVariants.{Memory};
ghost use Rattle.fade_plan.specs.Sheets.{IsFadeEntry, is_at_fault, point_at, fade_entries_from, envelope_in, envelope_of};
ghost use Rattle.fade_plan.specs.Points.{IsKeptPoint, envelope_point_of};
ghost use Rattle.fade_plan.specs.Curves.{curve_of};
ghost use Rattle.cue_sheet.specs.Limits.{longest_sheet};

use crate::curve::Curve;
use crate::entry::{FadeEntry, read_entry};
use crate::envelope_fault::EnvelopeFault;
use crate::point::{Point, first_not_rising, place_all};
use cue_sheet::words::{line_at, without_mark};
use frame_header::Class;
use std::alloc::{AllocError, Global};
use std::marker::Model;

/// The most points that a sheet may have.
const MOST_POINTS: usize = 1_000;

/// Whether a line is at fault after `points` points.
fn is_at_fault(points: usize, entry: FadeEntry) -> bool
    ensures { result ≡ is_at_fault points entry }
{
    match entry {
        FadeEntry::Passed => false,
        FadeEntry::At(_, _) => points >= MOST_POINTS,
        FadeEntry::Broken => true,
    }
}

/// Keeps the point of a line that is one.
///
/// # Errors
/// If out of memory.
fn keep(points: &mut Vec<Point>, line: u32, entry: FadeEntry) -> Result<(), AllocError>
    requires sound { IsFadeEntry entry }
    requires kept { All IsKeptPoint points.old.items }
    ensures points { OnOk result (map envelope_point_of points.new.items
        ≡ map envelope_point_of points.old.items ++ point_at line entry) }
    ensures kept { IfOk result (λ _. All IsKeptPoint points.new.items) }
{
    if let FadeEntry::At(place, steps) = entry {
        points.push(Point {
            frame: 0,
            place,
            line,
            steps,
        })?;
    }
    Ok(())
}

/// The points of a sheet without a byte order mark, or its fault.
fn read_points(alloc: Global, text: &[u8]) -> Result<Vec<Point>, EnvelopeFault>
    requires { length text.now ≤ longest_sheet }
    ensures envelope { MatchResult result
        (λ points. envelope_in (fade_entries_from text.now 0)
        ≡ Ok (map envelope_point_of points.items))
        (λ fault. (fault ≡ Memory) ⊎ (envelope_in (fade_entries_from text.now 0) ≡ Err fault)) }
    ensures kept { IfOk result (λ points. All IsKeptPoint points.items) }
{
    let mut points = Vec::new(alloc);
    let mut line = 1;
    let mut at = 0;
    while at <= text.len() {
        let here = line_at(text, at);
        let entry = read_entry(here.line);
        if is_at_fault(points.len(), entry) {
            return Err(EnvelopeFault::Line(line));
        }
        let Ok(()) = keep(&mut points, line, entry) else {
            return Err(EnvelopeFault::Memory);
        };
        line += 1;
        at = here.next;
    }
    if points.is_empty() {
        return Err(EnvelopeFault::NoPoints);
    }
    Ok(points)
}

/// The points of gain that a sheet lists. In contracts it is the list of these points: line, position and
/// steps.
#[derive(Drop)]
pub struct Envelope {
    points: Vec<Point>,
}

impl Model for Envelope {
    ghost use Rattle.std.specs.Prelude.{List, map};
    ghost use Rattle.std.specs.List.{All};
    ghost use Rattle.fade_plan.specs.Sheets.{EnvelopePoint};
    ghost use Rattle.fade_plan.specs.Points.{IsKeptPoint, envelope_point_of};

    ghost Value = { List EnvelopePoint };

    ghost view = { λ envelope. map envelope_point_of envelope.points.items };

    ghost invariant = { λ envelope. All IsKeptPoint envelope.points.items };
}

impl Envelope {
    /// Reads a sheet of at most 65,536 bytes. A byte order mark at its beginning is skipped. Lines end with
    /// a line feed or at the end of the sheet; a carriage return at a line's end is dropped. Words are
    /// separated by spaces and tabs. A line without words, or whose first word begins with `#`, is skipped.
    /// Every other line has exactly two words and is a point: a position, as `Place::read` takes it, and
    /// steps of 1.5 dB, which are an optional `+` or `-` and one to three digits, from -255 to 255. There
    /// have to be 1 to 1,000 points.
    ///
    /// # Errors
    /// `Line` with the first line, counted from 1, that is neither skipped nor a point, or is the 1,001st
    /// point. `NoPoints` where no line is at fault and there is no point. `Memory` if out of memory.
    #[tactic(auto, unfolding(crate::specs::Sheets::envelope_of))]
    pub fn read(alloc: Global, bytes: &[u8]) -> Result<Envelope, EnvelopeFault>
        requires { length bytes.now ≤ longest_sheet }
        ensures { MatchResult result
            (λ envelope. envelope_of bytes.now ≡ Ok envelope)
            (λ fault. (fault ≡ Memory) ⊎ (envelope_of bytes.now ≡ Err fault)) }
    {
        let points = read_points(alloc, without_mark(bytes))?;
        Ok(Envelope { points })
    }

    /// The curve over a stream of `frames` frames of this class. It allocates nothing.
    ///
    /// # Errors
    /// The line of the first point whose frame isn't greater than the frame of the point before.
    pub fn place_on(self, class: Class, frames: u32) -> Result<Curve, u32>
        ensures { result ≡ curve_of class frames self }
    {
        let mut points = self.points;
        place_all(&mut points, class, frames);
        match first_not_rising(&points) {
            Some(line) => Err(line),
            None => Ok(Curve::of(points)),
        }
    }
}
