//! Tests of Xing/Info headers, and of the window over main data.
#![tactic(auto)]

#[cfg(test)]
mod heads;
#[cfg(test)]
mod windows;
