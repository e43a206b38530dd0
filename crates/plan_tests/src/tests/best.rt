//! Plans that take the fewest bytes.
mod planned;
mod search;
mod worked;
