//! Frames, files and Info frames worked out by hand.
mod infos;
mod needs;
mod pieces;
mod relays;
