//! The values of terms at all tuples of a region.
//!
//! A term is run node by node: each node makes a row of values, one for each tuple of the region,
//! and the rows stand one behind the other in a buffer. Operators over regions have the values of
//! their operands over their own region first.
#![tactic(auto)]

mod leaves;
mod operators;
mod remaps;
mod scans;
mod values;

pub use array_terms;
pub use operators::{all_kept, kept_in};
pub use remaps::no_array;
pub use row_stacks;
pub use values::{push_operand, push_values};
