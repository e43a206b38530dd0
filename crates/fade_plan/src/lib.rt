//! Fades. `Envelope::read(alloc, bytes)` reads a sheet of points, each a position and the steps of 1.5 dB
//! by which gains move there; `envelope.place_on(class, frames)` is its curve over a stream, and
//! `curve.steps(frame, back)` is by how many steps the gains of a frame move.
#![tactic(auto)]

mod curve;
mod entry;
mod envelope;
mod envelope_fault;
mod point;

pub use curve::Curve;
pub use envelope::Envelope;
pub use envelope_fault::EnvelopeFault;
