//! A slow and plain reading of a file, from the rules and tables of the standard (ISO/IEC 11172-3 and 13818-3,
//! 2.4), the layouts of the blocks, and the rules of where a stream begins: each frame's fields bit by bit,
//! its main data in the joined areas of all frames, and the least of all faults. It shares no code with the
//! survey.
#![tactic(auto)]

mod bits;
mod faults;
mod frame;
mod stream;

pub use faults::first_fault;
