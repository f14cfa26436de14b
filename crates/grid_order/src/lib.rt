//! Orders of turns: texts that name processors, one item after another.
#![tactic(auto)]

mod laws;
mod order;
mod read;
mod words;

pub use laws::orders_have_their_bounds;
pub use order::Order;
pub use read::{OrderFault, read_order};
