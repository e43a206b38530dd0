//! The names of what a command reads, and which of them is an output's.
ghost use Rattle.std.specs.Prelude.{◌≡◌, ◌≤◌, List, ℕ, [], ◌∷◌, length, map, bytes_eq};
ghost use Rattle.std.specs.List.{list_any};
ghost use Rattle.commands.specs.Command.{clash_from};
ghost use Rattle.commands.specs.Inputs.{names_of};

use std::convert::AsStr;

/// The names that the outputs of a command can have.
pub trait OutputNames {
    /// All of them.
    ghost names: { Self → List (List ℕ) };

    /// Whether an output can have this name.
    fn contain(&self, name: &str) -> bool
        ensures { result ≡ list_any (bytes_eq name.now) (names self.now) };
}

/// The name of the one output.
impl OutputNames for &str {
    ghost names = { λ output. output.now ∷ [] };

    fn contain(&self, name: &str) -> bool {
        name == *self
    }
}

/// The number of the first of these inputs that has the name of an output, counted from 0.
pub fn clash<O: OutputNames + Copy, N: AsStr>(outputs: O, inputs: &[N]) -> Option<u32>
    requires { length inputs.now ≤ 64 }
    ensures { result ≡ clash_from (O.names outputs) 0 (map N.text inputs.now) }
{
    for number in 0..inputs.len() {
        if outputs.contain(inputs[number].as_str()) {
            return Some(number as u32);
        }
    }
    None
}

/// The names of the inputs: the source, which is read again while the output is written, and a
/// sheet, if the command reads one.
#[derive(Clone, Copy)]
pub struct Inputs<'a> {
    pub source: &'a str,
    pub sheet: Option<&'a str>,
}

impl<'a> Inputs<'a> {
    /// The source alone.
    pub fn one(source: &'a str) -> Self
        ensures { names_of result ≡ source.now ∷ [] }
    {
        Inputs {
            source,
            sheet: None,
        }
    }

    /// As `clash`, of these inputs.
    pub fn clash<O: OutputNames + Copy>(&self, outputs: O) -> Option<u32>
        ensures { result ≡ clash_from (O.names outputs) 0 (names_of self.now) }
    {
        match self.sheet {
            Some(sheet) => clash(outputs, &[self.source, sheet]),
            None => clash(outputs, &[self.source]),
        }
    }
}
