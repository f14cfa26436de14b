//! The messages of `wrap` and `reflect`: their words, and what the turns of such a row make of a
//! processor's state.
#![tactic(auto)]

mod edges;
mod sources;

pub use edges::{edge_alone, edge_taken, edge_words};
pub use exchange_messages;
pub use exchange_messages::node_stages;
