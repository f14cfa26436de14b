//! Code that does in step what its meaning says does so after every order of turns.
//!
//! The functions here do nothing: each has a law as its contract, and a call brings the law into a
//! proof.
#![tactic(auto)]

mod laws;

pub use laws::{code_ends_in_time, code_in_step_is_good};
