//! Runs of code whose moves are added to a table, which tells how long they take at least where all
//! processors work at once.
#![tactic(auto)]

mod faults;
mod runs;

pub use faults::TimeFault;
pub use runs::run_timed;
