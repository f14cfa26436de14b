//! Scans along one dimension of a region, of a row of values with a mask, in one pass and in place.
#![tactic(auto)]

mod laws;
mod lines;
mod scans;

pub use laws::line_scans_are_those_of_totals;
pub use scans::scan_along;
