//! Tests of a session.
#![tactic(auto)]

#[cfg(test)]
mod tests;
