//! Tests of the survey of a folder's file, of the tag that is read there, of what a folder may do to both, and of the reading of
//! damaged files.
#![tactic(auto)]

#[cfg(test)]
mod tests;
