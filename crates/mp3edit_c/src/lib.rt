//! The library for C: a handle that holds a session, and the functions that C calls.
#![tactic(auto)]

mod exports;
mod handle;
mod loose;

pub use handle::Handle;
