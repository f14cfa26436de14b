//! How large the passes over flat programs and plans make code.
//!
//! The functions here do nothing: each has a law of the definitions as its contract, and a call
//! brings the law into a proof.
#![tactic(auto)]

mod laws;

pub use fuse_contract;
pub use laws::{
    exchanges_get_fewer, needs_are_few, settled_programs_are_small, temporaries_are_few,
};
