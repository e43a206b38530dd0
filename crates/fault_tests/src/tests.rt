//! Walks over frames and blocks, lost frames, and first faults, which a plain reading finds too.
mod edited;
mod first_faults;
mod long;
mod lost;
mod shapes;
mod shrunk;
mod stretches;
mod walks;
