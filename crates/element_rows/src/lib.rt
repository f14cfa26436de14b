//! Rows of elements: what an array of the store has at each tuple of a region.
#![tactic(auto)]

mod around;
mod elements;

pub use elements::{push_element, push_shifted, push_wrapped};
pub use plain_rows;
