//! How scans are shared out over a grid.
//!
//! A region is cut into lines, and these into the parts that the processors own. Each processor
//! tells all others the totals of its lines, and makes the scan on its own block from these and
//! from its own values.
#![tactic(auto)]

mod laws;
mod lines;
mod lists;
mod scans;
mod sums;

pub use laws::{
    line_totals_and_own_values_give_the_scan, owned_parts_are_regions,
    totals_are_those_of_the_values,
};
pub use lists::Totals;
pub use scans::scan_block;
pub use sums::totals;
