//! Rows of values over a source, brought under another region: partial reductions and floods.
//!
//! Each takes one pass over the source's row, and one over the region.
#![tactic(auto)]

mod floods;
mod parts;

pub use floods::push_flooded;
pub use parts::{PartFold, push_parts};
