//! Rows of constants and of coordinates: a value for each tuple of a region.
#![tactic(auto)]

mod rows;

pub use rows::{push_constant, push_coordinates};
