//! The inputs of a join.
ghost use Rattle.std.specs.Prelude.{◌≡◌, ◌+◌, ◌<◌, ◌∷◌, length, map, drop};
ghost use Rattle.joined_inputs.specs.Inputs.{input_view};

use sync_survey::Survey;

/// An input: its name, its survey, and the number of the first of its frames that is written, counted from 0.
#[derive(Drop)]
pub struct JoinInput<'a> {
    pub name: &'a str,
    pub survey: Survey,
    pub from: u32,
}

/// The input with this number, counted from 0.
pub fn input_at<'b, 'a>(inputs: &'b [JoinInput<'a>], number: usize) -> &'b JoinInput<'a>
    requires { number < length inputs.now }
    ensures { drop number (map input_view inputs.now)
        ≡ input_view result.now ∷ drop (number + 1) (map input_view inputs.now) }
{
    &inputs[number]
}
