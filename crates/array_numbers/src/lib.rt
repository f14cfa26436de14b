//! The arrays of the expanded program that the numbers of lowered arrays stand for.
//!
//! The functions here do nothing: each has a law of the definitions as its contract, and a call
//! brings the law into a proof.
#![tactic(auto)]

mod laws;

pub use laws::{numbers_stand_for_arrays, plain_assignments_stand_apart};
