//! Tests of positions and cue sheets.

mod cues;
mod places;
