//! Programs of the whole language that are drawn from a number.
//!
//! A program works on three arrays of 16 to 32 rows and columns: their borders and elements are
//! set, then come 40 to 99 drawn lines, and at last it prints sums of the arrays and one of them.
#![tactic(auto)]

mod draws;
mod laws;
mod lines;
mod programs;
#[cfg(test)]
mod tests;

pub use laws::drawn_programs_are_short;
pub use programs::drawn_program;
