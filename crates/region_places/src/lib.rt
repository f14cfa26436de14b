//! Where a tuple stands among those of its region, by arithmetic.
#![tactic(auto)]

mod places;
mod walks;

pub use places::{place, size};
pub use walks::{least, next_after};
pub use zpl_arrays;
pub use zpl_arrays::{zpl_nums, zpl_region};
