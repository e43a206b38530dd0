//! Small files, and what is read of them. All of it was worked out by hand from the layouts of frames and blocks.
mod apart;
mod damaged;
mod folders;
mod gains;
mod tags;
mod untold;
