//! What a call of `exec` says: runs of listings under an order of turns, what is told of them, and
//! the cause of each status.
//!
//! The definitions stand in `specs/`. The functions here do nothing: each has a law of the
//! definitions as its contract.
#![tactic(auto)]

mod laws;
mod limits;
pub mod status;

pub use laws::{exec_causes_are_one, exec_statuses_are_exact, listings_are_executed};
pub use limits::MOST_LISTING;
pub use node_check;
