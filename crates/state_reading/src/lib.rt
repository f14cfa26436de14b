//! The states of processors, read from the lines of a saved grid.
#![tactic(auto)]

mod arrays;
mod grids;
mod kept;
mod laws;
mod standings;
mod states;

pub use grids::read_states;
pub use laws::{grids_have_one_reading, states_have_one_reading};
pub use states::{ReadState, read_state};
