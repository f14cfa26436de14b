//! Operators on rows of values: one node of an expression at all tuples of a region, in a loop.
//!
//! Rows are changed in place. The laws say that rows of the values of terms become rows of the
//! values of the operators' terms.
#![tactic(auto)]

mod folds;
mod laws;
mod rows;

pub use folds::fold_row;
pub use laws::{folds_are_those_of_totals, rows_are_those_of_totals};
pub use rows::{clear_masked, pair_each, pair_misses, unary_each};
