//! Tests of exact pieces: places of samples, spans of a file with their numbers, the frames that files share, positions that
//! are heard of some frames, and Info frames with an extension.

mod frames;
mod heard;
mod overlaps;
mod places;
mod spans;
