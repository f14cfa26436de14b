//! Orders in step, from a flat program that shows what is meant to the node code of its plan.
//!
//! The functions here do nothing: each has a law as its contract, and a call brings the law into a
//! proof.
#![tactic(auto)]

mod laws;

pub use emitted_orders;
pub use laws::{emitted_code_comes_in_order, emitted_code_comes_in_step, flat_runs_come_in_step};
