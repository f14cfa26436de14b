//! That what was read of a listing and of an order can be run on a grid.
//!
//! The functions here do nothing: each has a law as its contract, and a call brings the law into a
//! proof.
#![tactic(auto)]

mod laws;

pub use laws::{listed_code_has_room, read_orders_can_be_given};
