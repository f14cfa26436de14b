//! The node code of a program, for any grid: it is lowered, and the passes follow.
#![tactic(auto)]

mod faults;
mod laws;
mod programs;

pub use faults::CompileFault;
pub use flat_code::Build;
pub use laws::{compiled_programs_fit, lowered_shifts_are_stored};
pub use lowered_flat;
pub use programs::compile;
