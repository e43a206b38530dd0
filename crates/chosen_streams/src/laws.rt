//! Laws of the definitions. Each function does nothing: a proof that needs its law calls it.
ghost use Rattle.chosen_streams.specs.Laws.{PlannedStreamsAreExact, ChosenStreamsAreExact, ChosenPlansAreFirst, PackedStreamsAreExact, JoinedStreamsAreExact, JoinedPlansAreFirst, SeamlessPlansAreFirst, SalvagedStreamsAreExact, SalvagedPlansAreFirst, SalvagedFramesAreLeft, StreamsAreChosen, OutputsAreNamed};

/// The stream of parts of well-formed files, laid in the slots of their plan, is exactly the frames of each part, in order,
/// each part after at most one lead-in: a frame without main data, with the header of the part's first frame, but without a
/// check word. The inputs of a join are such parts.
pub fn planned_streams_are_exact()
    ensures { PlannedStreamsAreExact }
{}

/// The output of a cut, of a packing with the least slots, and each piece of a split holds exactly the chosen frames of the
/// input's stream, after at most one lead-in.
pub fn chosen_streams_are_exact()
    ensures { ChosenStreamsAreExact }
{}

/// The plan by which these outputs are written, no matter how it is found: of all lists of slots that the frames may have,
/// and into which the main data can be laid (main_data_begin, ISO/IEC 11172-3 and 13818-3, 2.4.2.7), it is the first in the
/// order of areas, frame by frame; with a lead-in only where no list has room without one.
pub fn chosen_plans_are_first()
    ensures { ChosenPlansAreFirst }
{}

/// The output of a packing, in whichever mode, holds exactly the chosen frames too.
pub fn packed_streams_are_exact()
    ensures { PackedStreamsAreExact }
{}

/// The output of a join holds exactly the frames of each input,
/// in order, the frames of each input after at most one lead-in.
pub fn joined_streams_are_exact()
    ensures { JoinedStreamsAreExact }
{}

/// The plan of a join is the first of all lists too, each frame in its own slot: it determines which inputs have a lead-in,
/// and where main data begin.
pub fn joined_plans_are_first()
    ensures { JoinedPlansAreFirst }
{}

/// The plan of a join without seams is the first of all lists too, as the plan of one part: each frame of the splice in its own
/// slot, except for first frames of inputs that joined in greater ones.
pub fn seamless_plans_are_first()
    ensures { SeamlessPlansAreFirst }
{}

/// The output of a salvage holds exactly what is left of the damaged file, after at most one lead-in: the frames of all islands
/// between gaps, in order, each sound frame as it is, and each other frame as an empty one.
pub fn salvaged_streams_are_exact()
    ensures { SalvagedStreamsAreExact }
{}

/// The plan of a salvage is the first of all lists too, each
/// frame in its own slot, like the plan of a cut of all frames.
pub fn salvaged_plans_are_first()
    ensures { SalvagedPlansAreFirst }
{}

/// As many frames are left of a damaged file as are read from it: each sound frame with its header and its side information
/// except `main_data_begin`, and each other frame with side information that is all 0, and without main data.
pub fn salvaged_frames_are_left()
    ensures { SalvagedFramesAreLeft }
{}

/// What each command writes, where it isn't refused, holds exactly the frames that its job chooses, no matter which plan it is
/// laid by: for a change of gains all frames of the input, with their gains moved, and no lead-in; for every other command the
/// frames of each part, in order, each part after at most one lead-in.
pub fn streams_are_chosen()
    ensures { StreamsAreChosen }
{}

/// What each command writes has the names that are asked for, in their order, and no two of its outputs have the same name.
pub fn outputs_are_named()
    ensures { OutputsAreNamed }
{}
