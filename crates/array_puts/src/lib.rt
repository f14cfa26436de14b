//! Loops that put values into an array do what assignments write.
//!
//! The definitions stand in `specs/`. The function here does nothing: it has a law of the
//! definitions as its contract, and a call brings the law into a proof.
#![tactic(auto)]

mod laws;

pub use laws::one_put_is_an_assignment;
