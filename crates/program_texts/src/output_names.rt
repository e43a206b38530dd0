//! The names of the files that a command may write.
ghost use Rattle.std.specs.Prelude.{◌≡◌};
ghost use Rattle.program_texts.specs.Lines.{Name, line_part_of};
ghost use Rattle.program_texts.specs.Names.{name_in, names_of_outputs};

use crate::parts::LinePart;

/// The names of the files that a command may write, in the order of writing.
#[derive(Clone, Copy)]
pub enum Outputs<'a> {
    /// None.
    None,
    /// This one.
    One(&'a str),
    /// The names of the pieces of a split, 99: this prefix, two digits from 01 on, and `.mp3`.
    Pieces(&'a str),
}

impl<'a> Outputs<'a> {
    /// The name at a place of the list, counted from 0; an empty one where there is no such output.
    pub(crate) fn named(self, place: u32) -> LinePart<'a>
        ensures { line_part_of result ≡ Name (name_in (names_of_outputs self.entry) place) }
    {
        match self {
            Outputs::One(name) if place == 0 => LinePart::Name(name),
            Outputs::Pieces(prefix) if place < 99 => LinePart::PieceName(prefix, place + 1),
            _ => LinePart::Name(""),
        }
    }
}
