//! The numbers that are free before a program is lowered.
#![tactic(auto)]

mod arrays;
mod bodies;
mod counts;
mod numbers;
mod sums;

pub use lower_reads::text_sharing;
pub use numbers::first_next;
