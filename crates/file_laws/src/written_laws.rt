//! Laws of files that commands write. Each function does nothing: a proof that needs its law calls it.
ghost use Rattle.file_laws.specs.WrittenLaws.{WrittenFilesAreCounted, WrittenFramesStay};

/// A file written by a command that repacks main data is of frames with all main data laid into their areas, behind an Info
/// frame that gives the number of the frames, and how many bytes there are from the Info frame to the last of them.
pub fn written_files_are_counted()
    ensures { WrittenFilesAreCounted }
{}

/// No frame is lost in a file written by a command that repacks main data, nor is
/// any when the head of the file is set apart: no main data begin in the Info frame.
/// If such a file is cut to a sample, all its frames therefore have their main data.
pub fn written_frames_stay()
    ensures { WrittenFramesStay }
{}
