//! That lowered code does with arrays what programs mean.
//!
//! The definitions stand in `specs/`. The functions here do nothing: each has a law of the
//! definitions as its contract, and a call brings the law into a proof.
#![tactic(auto)]

mod laws;

pub use laws::{array_assignments_go_alike, array_statements_go_alike, known_arrays_go_alike};
