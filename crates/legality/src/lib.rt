//! What a command asks of its inputs and of what was chosen, in one definition: no input is an output, each input that is read as a
//! stream is there, no longer than allowed and well-formed, and the choices are legal, together with the sheet or damaged file that
//! they name. A law says that this is exactly what is accepted. Nothing here runs.
#![tactic(auto)]

mod laws;

pub use laws::{legal_is_accepted, unfit_is_refused};
