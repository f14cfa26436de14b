//! Rows of node code that need scalars and slots alone, and those that print a text or a value:
//! what they make of a processor's state.
#![tactic(auto)]

mod dims;
mod lookups;
mod moves;
mod prints;
mod regions;
mod rows;
mod values;

pub use prints::run_print;
pub use rows::run_control;
pub use values::scalar_value;
