//! Laws of the definitions that the survey's contract cites. Each function does nothing: a proof that needs
//! its law calls it.
ghost use Rattle.sync_survey.specs.Laws.{OneItemStands, ChainsAreOnly, StartsAreLeast, LostFramesLead, SurveysHoldStreams, SurveysArePlaced, ApartFramesLead, HeadsApartArePlaced, HeadsApartAreLaid, NearFramesStay};

/// Bytes begin with one item and no other: a header, a header of free format, a block, a zero byte, the
/// end, or none of these.
pub fn one_item_stands()
    ensures { OneItemStands }
{}

/// The items of a chain are whole and follow end to end, and no other items do; with the bytes after
/// them they are the file's bytes.
pub fn chains_are_only()
    ensures { ChainsAreOnly }
{}

/// The first frame of a stream is whole, and after junk it is at the smallest offset at which an anchored
/// frame begins.
pub fn starts_are_least()
    ensures { StartsAreLeast }
{}

/// A frame is lost exactly if its main data begin before the stream and every frame before it is silent or
/// lost.
pub fn lost_frames_lead()
    ensures { LostFramesLead }
{}

/// A file without fault is well-formed, and its stream is the stream of its survey, whatever number
/// of frames was allowed.
pub fn surveys_hold_streams()
    ensures { SurveysHoldStreams }
{}

/// Each frame of a file without fault has a header of the standard and is of the class of the
/// survey. Its main data begin neither before all areas nor before the end of the main data before
/// them, and end within its own area; or it is marked as lost. The survey of a folder says so too
/// where the content of the files isn't known (`laid`).
pub fn surveys_are_placed()
    ensures { SurveysArePlaced }
{}

/// In a file without fault, every frame whose main data begin before the areas of the frames before
/// it, not counting the head's, is lost when the head is set apart: before it there are only frames
/// that are silent or lost in this sense.
pub fn apart_frames_lead()
    ensures { ApartFramesLead }
{}

/// When the head of a file without fault is set apart, the main data of its frames are where they
/// may be in a file of the same frames without a head, so any part of them can be planned.
pub fn heads_apart_are_placed()
    ensures { HeadsApartArePlaced }
{}

/// When the head of a file without fault is set apart and each lost frame is an empty one, the
/// survey is laid out like that of a file without fault, with the head.
pub fn heads_apart_are_laid()
    ensures { HeadsApartAreLaid }
{}

/// If the main data of each frame begin within the areas of the frames before it, not counting the
/// head's, no frame is lost when the head is set apart.
pub fn near_frames_stay()
    ensures { NearFramesStay }
{}
