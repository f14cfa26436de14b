//! That lowered code does with operators over regions what programs mean.
//!
//! The definitions stand in `specs/`. The functions here do nothing: each has a law of the
//! definitions as its contract, and a call brings the law into a proof.
#![tactic(auto)]

mod laws;

pub use laws::{
    arrays_by_operators_go_alike, prints_by_operators_go_alike, returns_by_operators_go_alike,
    scalars_by_operators_go_alike, statements_by_operators_go_alike, tests_by_operators_go_alike,
    values_by_operators_go_alike,
};
