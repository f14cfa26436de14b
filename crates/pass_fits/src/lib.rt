//! Tables that fit do so behind each pass.
//!
//! The functions here do nothing: each has a law of the definitions as its contract, and a call
//! brings the law into a proof.
#![tactic(auto)]

mod laws;

pub use laws::{flat_programs_stay_flat, plans_fit, shifts_stay_stored};
pub use pass_parts::fuse_contract;
