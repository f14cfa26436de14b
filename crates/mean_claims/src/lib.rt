//! What a call of `mean` says: that it prints what a program means and ends as the meaning does,
//! what is told of it, and the cause of each status.
//!
//! The definitions stand in `specs/`. The functions here do nothing: each has a law of the
//! definitions as its contract.
#![tactic(auto)]

mod laws;

pub use laws::{accepted_programs_are_meant, mean_causes_are_one, mean_statuses_are_exact};
