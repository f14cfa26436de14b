//! Arrays, read and written line by line under regions.
//!
//! A region is walked by arithmetic, along the lines of its last dimension, or of the one before it
//! where the last has a single place. No call takes memory for a tuple.
#![tactic(auto)]

mod axes;
mod reads;
mod sides;
mod ways;

pub use axes::Axis;
pub use reads::{Reading, line_of, push_read};
pub use region_places;
pub use region_places::{zpl_nums, zpl_region};
pub use sides::{Side, Way};
pub use ways::{ways_around, ways_flooded, ways_shifted};
