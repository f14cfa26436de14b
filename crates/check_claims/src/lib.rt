//! What a call of `check` says: whether the code of a listing is sound, and the cause of each
//! status.
//!
//! The definitions stand in `specs/`. The functions here do nothing: each has a law of the
//! definitions as its contract.
#![tactic(auto)]

mod laws;

pub use laws::{check_statuses_are_exact, checked_calls_are_never_stuck};
