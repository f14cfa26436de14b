//! Grids that are saved as text: the program, where each processor stands, and the messages on
//! their way.
#![tactic(auto)]

mod faults;
mod laws;
mod parts;
mod states;
mod writes;

pub use faults::SaveFault;
pub use laws::{a_grid_has_one_text, texts_tell_one_grid};
pub use writes::write_save;
