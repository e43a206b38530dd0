//! Tests of numbers among bits, headers and side information.
#![tactic(auto)]

#[cfg(test)]
mod bits;
#[cfg(test)]
mod headers;
#[cfg(test)]
mod sides;
