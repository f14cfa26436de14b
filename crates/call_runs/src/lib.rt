//! That lowered calls do what programs mean by them, where what is called does.
//!
//! The definitions stand in `specs/`. The functions here do nothing: each has a law of the
//! definitions as its contract, and a call brings the law into a proof.
#![tactic(auto)]

mod laws;

pub use laws::{
    Calling, Serving, Values, answers_go_alike, bodies_return_alike, call_leaves_go_alike,
    calls_go_alike, copies_are_made,
};
