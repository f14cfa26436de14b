//! The lowered program: its statements as rows, with every call expanded.
#![tactic(auto)]

mod calls;
mod faults;
mod programs;
mod runs;
mod statements;

pub use faults::LowerFault;
pub use programs::lower;
