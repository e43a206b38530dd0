//! What the program is asked to do.

use arrayvec::ArrayVec;
use cue_sheet::Place;
use exact_span::ExactPlace;
use requests::{PackMode, Shift};

/// What a list of words asks for. Names are the words themselves.
#[derive(Debug, PartialEq, Eq, Drop)]
pub enum Job<'a> {
    /// Say what the program does.
    Help,
    /// Say which program it is.
    Version,
    /// Say what is in the file `input`.
    List {
        /// The name of the file to read.
        input: &'a str,
    },
    /// Say in a few lines what the file `input` is, and by how many steps its gains can move.
    Info {
        /// The name of the file to read.
        input: &'a str,
    },
    /// Move the gains of the file `input`, and write the result to `output`.
    Gain {
        /// The change.
        shift: Shift,
        /// Whether the change is noted in the tag.
        tags: bool,
        /// The name of the file to read.
        input: &'a str,
        /// The name of the file to write.
        output: &'a str,
    },
    /// Undo all changes that are noted in the tag of the file `input`, and write the result to `output`.
    Undo {
        /// The name of the file to read.
        input: &'a str,
        /// The name of the file to write.
        output: &'a str,
    },
    /// Write the frames of the file `input` from one position up to, but not including, another to `output`.
    Cut {
        /// The position of the first frame.
        from: Place,
        /// The position of the first frame after them.
        to: Place,
        /// Whether each frame gets the lowest bit rate and padding with which all main data still have room, and doesn't keep
        /// its own.
        least: bool,
        /// The name of the file to read.
        input: &'a str,
        /// The name of the file to write.
        output: &'a str,
    },
    /// Write the frames that a decoder needs for the samples of the file `input` from one place up to, but not including, another to
    /// `output`, which players play as exactly these samples.
    CutExact {
        /// The name of the file to read.
        input: &'a str,
        /// The place of the first sample.
        from: ExactPlace,
        /// The place of the first sample after them.
        to: ExactPlace,
        /// The name of the file to write.
        output: &'a str,
    },
    /// Write all frames of the file `input` to `output`, with the bit rates and padding that the mode asks for.
    Pack {
        /// How the bit rates are chosen. A bit rate in it is what the word says, 0 to 999 kbit/s.
        mode: PackMode,
        /// The name of the file to read.
        input: &'a str,
        /// The name of the file to write.
        output: &'a str,
    },
    /// Write the frames of the file `input` between each two neighbouring positions to their own file.
    SplitAt {
        /// The name of the file to read.
        input: &'a str,
        /// What the names of the files to write begin with.
        prefix: &'a str,
        /// The positions, 2 to 100.
        places: ArrayVec<Place, 100>,
    },
    /// Write the frames that a decoder needs for the samples of the file `input` between each two neighbouring places to their own
    /// file, which players play as exactly these samples.
    SplitExact {
        /// The name of the file to read.
        input: &'a str,
        /// What the names of the files to write begin with.
        prefix: &'a str,
        /// The places, 2 to 100.
        places: ArrayVec<ExactPlace, 100>,
    },
    /// Write each track of the file `input` to its own file, by the starts in a cue sheet.
    SplitBy {
        /// Whether tracks are cut at samples, and not at frames.
        exact: bool,
        /// The name of the file to read.
        input: &'a str,
        /// What the names of the files to write begin with.
        prefix: &'a str,
        /// The name of the cue sheet.
        sheet: &'a str,
    },
    /// Write the frames of all inputs, joined in order, to the file `output`.
    Join {
        /// Whether the frames that only a piece needs are left
        /// out, and a line says so for each input after the first.
        seamless: bool,
        /// The name of the file to write.
        output: &'a str,
        /// The names of the files to read, 1 to 64.
        inputs: &'a [String],
    },
    /// Make a stream from a seed, pack it in memory, and say how long both are.
    Drill {
        /// The seed, below 2^31.
        seed: u32,
        /// How many frames the stream has, 1 to 20,000.
        count: u32,
    },
    /// Write the file `input` to `output`, each frame louder or quieter by the steps that a sheet gives for its number.
    Fade {
        /// Whether it moves them by as many steps the other
        /// way, which undoes a fade by the same sheet.
        back: bool,
        /// The name of the file to read.
        input: &'a str,
        /// The name of the file to write.
        output: &'a str,
        /// The name of the sheet.
        sheet: &'a str,
    },
    /// Write what can be read of the damaged file `input` to `output`, and say what is missing.
    Salvage {
        /// The name of the file to read.
        input: &'a str,
        /// The name of the file to write.
        output: &'a str,
    },
    /// Write the file `input` without some stretches of frames to `output`.
    Remove {
        /// The name of the file to read.
        input: &'a str,
        /// The name of the file to write.
        output: &'a str,
        /// The stretches, 1 to 50: the place of the first frame that goes, and of the first that stays after it.
        stretches: ArrayVec<(ExactPlace, ExactPlace), 50>,
    },
}
