//! What a call of `run` says: a program is compiled and its code run under an order of turns, what
//! is told of it, and the cause of each status.
//!
//! The definitions stand in `specs/`. The functions here do nothing: each has a law of the
//! definitions as its contract.
#![tactic(auto)]

mod laws;

pub use laws::{run_causes_are_exact, runs_are_one, runs_print_what_is_meant};
pub use list_claims;
