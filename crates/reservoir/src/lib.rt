//! The bit reservoir of Layer III: a window over the last 2,048 bytes of areas, from which the main data of
//! a frame are read, even where they begin in earlier frames. The areas of a stream are pushed in order,
//! also that of a head, and a frame's own before its main data are asked for. Only `new` allocates.
//!
//! ```text
//! let mut window = Window::new(alloc)?;
//! window.push_area(area);
//! window.payload(area.len() as u32, main_data_begin, bits, &mut payload);
//! ```
#![tactic(auto)]

mod laws;
mod payload;
mod window;

pub use laws::{areas_are_held, frames_are_held};
pub use payload::Payload;
pub use window::Window;
