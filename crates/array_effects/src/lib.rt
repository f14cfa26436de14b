//! What statements do with terms: the values over a region, and what is written of them.
#![tactic(auto)]

mod arrays;

pub use array_values;
pub use arrays::{assign, values_over};
