//! The messages of `gather`, by which processor 0 gets the values of an array over a region.
#![tactic(auto)]

mod words;

pub use node_messages;
pub use words::gather_words;
