//! That whole programs in lowered code do what they mean.
//!
//! The definitions stand in `specs/`. The functions here do nothing: each has a law of the
//! definitions as its contract, and a call brings the law into a proof.
#![tactic(auto)]

mod laws;

pub use laws::{array_programs_are_shown, what_is_named_is_given};
