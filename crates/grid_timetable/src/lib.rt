//! The ticks that a run takes at least where all processors work at once, and what they wait for.
#![tactic(auto)]

mod chain;
mod mail;
mod places;
mod segments;
mod table;

pub use segments::Segment;
pub use table::{MOST_MOVES, Table, TableFault};
