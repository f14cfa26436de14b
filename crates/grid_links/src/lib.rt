//! Links between processes, and what deterministic processes do over them in every order of turns.
#![tactic(auto)]

pub mod laws;
mod links;
mod machine;
mod messages;

pub use links::Links;
pub use machine::Machine;
pub use messages::{Message, Words};
