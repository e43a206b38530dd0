//! The frames of which an output consists, as ranges of the frames of inputs.
ghost use Rattle.std.specs.Prelude.{◌≡◌, ◌+◌, ◌<◌, ◌∷◌, List, length, map, drop};
ghost use Rattle.joined_inputs.specs.Inputs.{input_view};
ghost use Rattle.joined_inputs.specs.Ranges.{RangeFields, range_view, rest_of_input};

use crate::inputs::{JoinInput, input_at};
use sync_survey::Survey;

/// Frames of an input that are written: those from number `from` up to, but not including, number
/// `to`, counted from 0.
#[derive(Clone, Copy)]
pub struct LaidRange<'a> {
    pub name: &'a str,
    pub survey: &'a Survey,
    pub from: usize,
    pub to: usize,
}

/// The ranges of frames of which an output consists, in order.
pub trait LaidRanges {
    /// All of them.
    ghost ranges: { Self → List RangeFields };

    /// How many there are.
    fn count(&self) -> usize
        ensures { result ≡ length (ranges self.now) };

    /// The range with this number, counted from 0.
    fn range(&self, number: usize) -> LaidRange<'_>
        requires { number < length (ranges self.now) }
        ensures { drop number (ranges self.now)
            ≡ range_view result ∷ drop (number + 1) (ranges self.now) };
}

/// The frames of each input from the first that is written on.
#[derive(Clone, Copy)]
pub(crate) struct Rests<'b, 'a> {
    pub inputs: &'b [JoinInput<'a>],
}

impl<'b, 'a> LaidRanges for Rests<'b, 'a> {
    ghost ranges = { λ rests. map rest_of_input (map input_view rests.inputs.now) };

    fn count(&self) -> usize {
        self.inputs.len()
    }

    fn range(&self, number: usize) -> LaidRange<'_> {
        let input = input_at(self.inputs, number);
        LaidRange {
            name: input.name,
            survey: &input.survey,
            from: input.from as usize,
            to: input.survey.frames().len(),
        }
    }
}
