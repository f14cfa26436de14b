//! That lowered shattered statements do what programs mean by them.
//!
//! The definitions stand in `specs/`. The functions here do nothing: each has a law of the
//! definitions as its contract, and a call brings the law into a proof.
#![tactic(auto)]

mod laws;

pub use laws::{shattered_leaves_go_alike, shattered_statements_go_alike};
