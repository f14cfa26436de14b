//! What a call says that saves a grid, and one that goes on from a saved grid: what is told where
//! all turns were given, and the cause of each status.
//!
//! The definitions stand in `specs/`. The functions here do nothing: each has a law of the
//! definitions as its contract.
#![tactic(auto)]

mod laws;
mod limits;

pub use laws::{resume_statuses_are_exact, runs_go_on, saved_grids_are_resumed, saved_runs_go_on};
pub use limits::MOST_SAVED;
pub use saved_runs;
pub use saved_runs::grid_save;
