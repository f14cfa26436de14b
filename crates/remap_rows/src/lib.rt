//! Reads of an array at computed indices, for a row of tuples.
//!
//! The rows of the indices stand one after the other. The law says that such a read has what a
//! remap read means.
#![tactic(auto)]

mod laws;
mod reads;

pub use array_store;
pub use laws::remaps_are_those_of_functions;
pub use reads::{Targets, are_placed, push_remapped};
