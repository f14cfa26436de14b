//! The words of commands, read without taking memory: which command they are, of which file, and
//! what the words behind it ask for.
#![tactic(auto)]

mod asked;
mod commands;
mod grids;
mod letters;
mod names;
mod numbers;
mod settings;
mod words;

pub use asked::Asked;
pub use commands::{Command, FileCommand, GenCommand, command_of};
pub use settings::{sets_nothing, setting_in};
