//! What a call of `gen N` says: the program that is drawn from a number is compiled for four grids
//! and run on each, a line tells what it printed there, and each status has its cause.
//!
//! The definitions stand in `specs/`. The functions here do nothing: each has a law of the
//! definitions as its contract.
#![tactic(auto)]

mod laws;

pub use laws::{gen_statuses_are_exact, lines_tell_what_is_meant};
pub use run_claims;
