//! Tests of tags, of positions and cue sheets, and of exact pieces.
#![tactic(auto)]

#[cfg(test)]
mod exact;
#[cfg(test)]
mod places;
#[cfg(test)]
mod tags;
