//! Tests of the words that the program takes, and of the lines and texts that it sends.
#![tactic(auto)]

#[cfg(test)]
mod tests;
