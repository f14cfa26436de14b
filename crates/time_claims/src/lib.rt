//! What a call of `time` says: how long the run of a listing takes at least where all processors
//! work at once, a chain of moves that takes so long, and the cause of each status.
//!
//! The definitions stand in `specs/`. The function here does nothing: it has a law of the
//! definitions as its contract.
#![tactic(auto)]

mod laws;

pub use grid_time;
pub use laws::time_statuses_are_exact;
