//! Runs of code on a grid under an order of turns: how they end, and the laws of that.
//!
//! The definitions stand in `specs/`. The functions here do nothing: each has a law of the
//! definitions as its contract, and a call brings the law into a proof.
#![tactic(auto)]

mod laws;

pub use laws::{endings_are_final, turns_count};
