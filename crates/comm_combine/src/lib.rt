//! Fewer exchanges: those that bring nothing new are left out, and neighbours are one.
#![tactic(auto)]

mod fresh;
mod laws;
mod marks;
mod neighbours;
mod repeats;

pub use laws::{neighbours_are_merged, repeats_are_dropped};
pub use neighbours::merge_neighbours;
pub use repeats::drop_repeats;
