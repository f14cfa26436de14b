//! Scans in row-major order, of a row of values with a mask, in one pass.
#![tactic(auto)]

mod laws;
mod scans;

pub use laws::scans_are_those_of_totals;
pub use scans::scan_row;
pub use value_rows;
