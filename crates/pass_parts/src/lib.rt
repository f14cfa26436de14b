//! The parts of tidy code through the passes.
//!
//! The functions here do nothing: each has laws of the passes' tables as its contract, and a call
//! brings them into a proof.
#![tactic(auto)]

mod laws;

pub use laws::{
    checks_say_what_is_joined, loops_are_joined_wherever_they_can_be, no_cells_are_left,
    no_cells_come_back, no_loops_come_back,
};
pub use pass_sizes::fuse_contract;
