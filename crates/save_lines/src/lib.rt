//! The lines of saved grids that tell the states of processors, between bytes and their numbers.
//!
//! What the lines say, as numbers that must be in range, isn't looked at here: their numbers are
//! any of 64 bits.
#![tactic(auto)]

mod guesses;
mod laws;
mod lines;
mod numbers;
mod texts;
mod words;

pub use laws::{bytes_have_one_reading, lines_are_told_apart};
pub use lines::{BoxDim, EndWord, Kind, ProcRow, SavedLine};
pub use texts::{LinesFault, read_lines, write_line};
