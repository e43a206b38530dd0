//! Plans of parts whose frames keep their slots, may have any slot, or one that isn't smaller.
mod classes;
mod larger;
mod led;
mod planned;
mod search;
mod worked;
