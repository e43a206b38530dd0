//! Plans from a menu of slots.
mod planned;
mod search;
mod worked;
