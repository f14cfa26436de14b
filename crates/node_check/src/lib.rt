//! Sound node code, and its validator.
//!
//! The functions of `laws` do nothing: each has a law as its contract, and a call brings the law
//! into a proof.
#![tactic(auto)]

mod alike;
mod asks;
mod checks;
mod demands;
mod facts;
mod faults;
mod fronts;
mod laws;
mod lists;
mod losses;
mod makes;
mod places;
mod starts;
mod strikes;
mod verdicts;
mod walks;

pub use checks::{Checked, validate};
pub use facts::Fact;
pub use faults::CheckFault;
pub use laws::{answers_are_exact, facts_of_slots_hold_along, paths_tell_what_is_unmet};
