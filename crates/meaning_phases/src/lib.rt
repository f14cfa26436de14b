//! The five phases of a statement that has no other in it.
//!
//! The definitions stand in `specs/`. The functions here do nothing: each has a law of the
//! definitions as its contract, and a call brings the law into a proof.
#![tactic(auto)]

mod laws;

pub use laws::{
    evaluations_go_through_their_phases, phases_have_their_traps,
    statements_go_through_their_phases,
};
