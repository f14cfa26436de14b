//! Tests of `grid_links` that use its public items alone.
#![tactic(auto)]

mod room;
mod same;
#[cfg(test)]
mod tests;

pub use room::send_where_room;
pub use same::{Same, Step, scripts_are_dominated};
