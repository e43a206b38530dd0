//! Tests of what is found in files, from small ones worked out by hand.
#![tactic(auto)]

#[cfg(test)]
mod tests;
