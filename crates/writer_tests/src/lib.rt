//! Tests of frames that are written in order, and of a file that is put together from them.
#![tactic(auto)]

#[cfg(test)]
mod appended;
#[cfg(test)]
mod outputs;
#[cfg(test)]
mod streams;
#[cfg(test)]
mod writers;
