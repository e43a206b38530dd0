//! Tests of streams that are packed, that fade, and that are made from a seed.
#![tactic(auto)]

#[cfg(test)]
mod tests;
