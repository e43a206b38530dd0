//! Tests of main data that are repacked, of what frames need for that, and of the files that hold them.
#![tactic(auto)]

#[cfg(test)]
mod tests;
