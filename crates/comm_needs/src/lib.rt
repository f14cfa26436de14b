//! What loops read of other processors, and what these agree on behind them.
#![tactic(auto)]

mod groups;
mod plans;

pub use plans::add_needs;
