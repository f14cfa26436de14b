//! That lowered code does what programs mean.
//!
//! The definitions stand in `specs/`. The functions here do nothing: each has a law of the
//! definitions as its contract, and a call brings the law into a proof.
#![tactic(auto)]

mod laws;

pub use laws::{
    Callables, scalar_calls_go_alike, scalar_programs_are_shown, scalar_statements_go_alike,
};
