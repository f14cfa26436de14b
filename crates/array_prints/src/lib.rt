//! The text that a print of an array appends, from the array's values in a row.
#![tactic(auto)]

mod prints;

pub use prints::print_array;
