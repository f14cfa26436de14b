//! The messages of exchanges: the words that `start` sends, and what those that `finish` takes
//! write.
#![tactic(auto)]

mod held;
mod starts;
mod writes;

pub use node_messages::{node_local, node_stages};
pub use starts::start_words;
pub use writes::{finish_taken, put_values};
