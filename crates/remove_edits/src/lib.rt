//! `remove`: takes stretches out of a file. What stays is laid as one splice, so that each part serves
//! as the bit reservoir of the next.
#![tactic(auto)]

mod calls;
mod edit;
mod kept;
mod marked;
mod planned;
mod ranges;
mod splice;
mod stretches;
mod work;

pub use calls::remove;
