//! Rows of values that stand one behind the other in a buffer, and what operators make of those
//! that stand last.
#![tactic(auto)]

mod rows;
mod scans;

pub use rows::{apply_behind, clear_behind, fold_behind, pair_behind, scan_behind};
pub use scans::scan_elsewhere;
