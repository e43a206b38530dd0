//! Laws of files of chosen frames. Each function does nothing: a proof that needs its law calls it.
ghost use Rattle.laying.specs.Laws.{EntriesHold, FilesHold, SurveysCanBeRelaid, BlocksAreKept, PlansFit, PlansAreOfParts, FittingFilesHold, FittingSlots, ChosenFramesStay, PlannedFramesStay};

/// The frames of parts of surveyed files, in the slots and with the main_data_begin of their plan,
/// are of the class, and their main data can be laid that way. In a stream they are the plan's
/// lead-ins, and each chosen frame as it is in the stream of its file: the same header except bit
/// rate index and padding, the same side information except main_data_begin, the same main data. A
/// lost frame becomes an empty one.
pub fn entries_hold()
    ensures { EntriesHold }
{}

/// A file of these frames, with blocks and an Info frame before them and blocks after them, is well-formed,
/// and its stream is the lead-ins and the chosen frames.
pub fn files_hold()
    ensures { FilesHold }
{}

/// A survey of a file without fault lists frames and blocks that are whole in the file, and main
/// data that are within the areas, so its frames can be repacked.
pub fn surveys_can_be_relaid()
    ensures { SurveysCanBeRelaid }
{}

/// The bytes of the blocks that a survey lists for its file, those that go before the frames and
/// all others, may be in such a file.
pub fn blocks_are_kept()
    ensures { BlocksAreKept }
{}

/// A plan of parts can be written frame by frame: no main_data_begin reaches back before the end of
/// the main data before it, or further than the window, and no main data end after their own area
/// (main_data_begin, ISO/IEC 11172-3 and 13818-3, 2.4.2.7).
pub fn plans_fit()
    ensures { PlansFit }
{}

/// A plan made for parts concatenated as the planner takes them is a plan of the parts, with the
/// window of their class, so the other laws apply to it.
pub fn plans_are_of_parts()
    ensures { PlansAreOfParts }
{}

/// A file of the frames of a part of a surveyed file, in the slots and with the main_data_begin of
/// any plan that can be written frame by frame, is well-formed, and its stream is the lead-ins of
/// the plan and the chosen frames.
pub fn fitting_files_hold()
    ensures { FittingFilesHold }
{}

/// The frames of `fitting_files_hold` are in the slots of the plan, one for each of its lead-ins and
/// frames.
pub fn fitting_slots()
    ensures { FittingSlots }
{}

/// No frame of a file of chosen frames is lost, not even when the head is set apart, whatever plan
/// they are laid by. `cut`, `split` and `pack` write such files.
pub fn chosen_frames_stay()
    ensures { ChosenFramesStay }
{}

/// No frame of a file of parts placed as planned is lost either. `join` writes such files.
pub fn planned_frames_stay()
    ensures { PlannedFramesStay }
{}
