//! The parts of tidy code: how large it is, and what each optimisation leaves it free of.
//!
//! The definitions stand in `specs/`, over the tables of `node_form`. The functions here do
//! nothing: each has a law of the definitions as its contract, and a call brings it into a proof.
#![tactic(auto)]

mod laws;

pub use laws::{rows_write_what_is_listed, walks_say_what_holds_of_stretches};
pub use node_form::{zpl_arrays, zpl_region};
