//! What a call of `list FILE` says: a program is compiled and its code listed, what code is made of
//! which texts, why others have none, and the cause of each status.
//!
//! The definitions stand in `specs/`. The functions here do nothing: each has a law of the
//! definitions as its contract.
#![tactic(auto)]

mod laws;

pub use laws::{accepted_programs_are_listed, list_statuses_are_exact, texts_have_one_program};
