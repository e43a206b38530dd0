//! Tests of plans: of parts, of the fewest bytes and from a menu, by hand and by trying every list of slots, and of the curves of
//! fades.
#![tactic(auto)]

#[cfg(test)]
mod tests;
