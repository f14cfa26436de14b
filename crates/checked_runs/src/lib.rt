//! Sound node code, which no order of turns makes stuck or idle.
//!
//! The functions here do nothing: each has a law as its contract, and a call brings the law into a
//! proof.
#![tactic(auto)]

mod laws;

pub use laws::{checked_code_never_stops, runs_of_checked_code_go_on, sound_code_never_stops};
