//! Tests of copies over a folder in memory and over real files, and of what the system does.
#![tactic(auto)]

#[cfg(test)]
mod copies;
