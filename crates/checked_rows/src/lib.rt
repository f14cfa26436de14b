//! Rows of sound node code in lock step, in front of which facts describe all processors.
//!
//! The functions here do nothing: each has a law as its contract, and a call brings the law into a
//! proof.
#![tactic(auto)]

mod laws;

pub use laws::{rows_fare_well, uniform_scalars_stay};
