//! Code whose loops within groups make only so many turns, and what it has to do with the code that
//! it is of.
//!
//! The functions here do nothing: each has a law as its contract, and a call brings the law into a
//! proof.
#![tactic(auto)]

mod laws;

pub use laws::{counted_code_goes_alike, counted_code_is_sound, counted_loops_end};
