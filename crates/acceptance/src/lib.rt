//! Tests of whole commands, over a folder and sinks in memory.
#![tactic(auto)]

#[cfg(test)]
mod tests;
